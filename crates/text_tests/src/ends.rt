// Texts that end where a word is due: 13 at the text's length.
use crate::told::all_told;
use std::test::Fail;

// A text that ends after its last word, cut after each of its words.
#[test]
fn cut_short(rt: HostRuntime) -> Result<(), Fail> {
    all_told(
        &rt,
        &[
            (b"", b"refusal 13 layer 2 place 0\n"),
            (b"states", b"refusal 13 layer 2 place 6\n"),
            (b"states 2", b"refusal 13 layer 2 place 8\n"),
            (b"states 2 a", b"refusal 13 layer 2 place 10\n"),
            (b"states 2 a b", b"refusal 13 layer 2 place 12\n"),
            (b"states 2 a b\nsymbols", b"refusal 13 layer 2 place 20\n"),
            (b"states 2 a b\nsymbols 1", b"refusal 13 layer 2 place 22\n"),
            (
                b"states 2 a b\nsymbols 1 x",
                b"refusal 13 layer 2 place 24\n",
            ),
            (
                b"states 2 a b\nsymbols 1 x\nrules",
                b"refusal 13 layer 2 place 30\n",
            ),
            (
                b"states 2 a b\nsymbols 1 x\nrules 1",
                b"refusal 13 layer 2 place 32\n",
            ),
        ],
    )
}

// The same text, cut later.
#[test]
fn cut_later(rt: HostRuntime) -> Result<(), Fail> {
    all_told(
        &rt,
        &[
            (
                b"states 2 a b\nsymbols 1 x\nrules 1\nmay",
                b"refusal 13 layer 2 place 36\n",
            ),
            (
                b"states 2 a b\nsymbols 1 x\nrules 1\nmay a",
                b"refusal 13 layer 2 place 38\n",
            ),
            (
                b"states 2 a b\nsymbols 1 x\nrules 1\nmay a x",
                b"refusal 13 layer 2 place 40\n",
            ),
            (
                b"states 2 a b\nsymbols 1 x\nrules 1\nmay a x trigger",
                b"refusal 13 layer 2 place 48\n",
            ),
            (
                b"states 2 a b\nsymbols 1 x\nrules 1\nmay a x trigger b",
                b"refusal 13 layer 2 place 50\n",
            ),
            (
                b"states 2 a b\nsymbols 1 x\nrules 1\nmay a x trigger b x",
                b"refusal 13 layer 2 place 52\n",
            ),
            (
                b"states 2 a b\nsymbols 1 x\nrules 1\nmay a x trigger b x x",
                b"refusal 13 layer 2 place 54\n",
            ),
            (
                b"states 2 a b\nsymbols 1 x\nrules 1\nmay a x trigger b x x\nstart",
                b"refusal 13 layer 2 place 60\n",
            ),
            (
                b"states 2 a b\nsymbols 1 x\nrules 1\nmay a x trigger b x x\nstart 1",
                b"refusal 13 layer 2 place 62\n",
            ),
            (
                b"states 2 a b\nsymbols 1 x\nrules 1\nmay a x trigger b x x\nstart 1 a",
                b"refusal 13 layer 2 place 64\n",
            ),
            (
                b"states 2 a b\nsymbols 1 x\nrules 1\nmay a x trigger b x x\nstart 1 a x",
                b"accepted\nslot 0 may 0 0 trigger 1 0 0\nstart 0 0\n",
            ),
        ],
    )
}

// Blanks at the end belong to the text's length.
#[test]
fn cut_with_blanks(rt: HostRuntime) -> Result<(), Fail> {
    all_told(
        &rt,
        &[
            (b" ", b"refusal 13 layer 2 place 1\n"),
            (b"\n", b"refusal 13 layer 2 place 1\n"),
            (b" \n \n", b"refusal 13 layer 2 place 4\n"),
            (b"states \n", b"refusal 13 layer 2 place 8\n"),
            (b"states 2 ", b"refusal 13 layer 2 place 9\n"),
            (b"states 2 a\n", b"refusal 13 layer 2 place 11\n"),
            (b"states 2 a b\nsymbols  ", b"refusal 13 layer 2 place 22\n"),
            (
                b"states 2 a b\nsymbols 2 x\n\n",
                b"refusal 13 layer 2 place 26\n",
            ),
            (
                b"states 2 a b\nsymbols 2 x y\nrules ",
                b"refusal 13 layer 2 place 33\n",
            ),
            (
                b"states 2 a b\nsymbols 2 x y\nrules 1\n",
                b"refusal 13 layer 2 place 35\n",
            ),
            (
                b"states 2 a b\nsymbols 2 x y\nrules 1\nmay a x end ",
                b"refusal 13 layer 2 place 47\n",
            ),
            (
                b"states 2 a b\nsymbols 2 x y\nrules 1\nmay a x gap a\n ",
                b"refusal 13 layer 2 place 50\n",
            ),
            (
                b"states 2 a b\nsymbols 2 x y\nrules 2\nmay a x end a\n",
                b"refusal 13 layer 2 place 49\n",
            ),
            (
                b"states 2 a b\nsymbols 2 x y\nrules 1\nmay a x end a\n  ",
                b"refusal 13 layer 2 place 51\n",
            ),
            (
                b"states 2 a b\nsymbols 2 x y\nrules 0\nstart 1 ",
                b"refusal 13 layer 2 place 43\n",
            ),
            (
                b"states 2 a b\nsymbols 2 x y\nrules 0\nstart 1 a\n",
                b"refusal 13 layer 2 place 45\n",
            ),
        ],
    )
}
