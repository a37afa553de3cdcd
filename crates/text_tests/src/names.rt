// Names that are unknown, 15 at the name, or listed twice, 16 at the later one.
use crate::told::all_told;
use std::test::Fail;

// A rule's states, symbols and event are looked up where they belong.
#[test]
fn unknown_in_rules(rt: HostRuntime) -> Result<(), Fail> {
    all_told(
        &rt,
        &[
            (
                b"states 2 a b\nsymbols 2 x y\nrules 1\nmay c x end a\nstart 1 a x\n",
                b"refusal 15 layer 3 place 39\n",
            ),
            (
                b"states 2 a b\nsymbols 2 x y\nrules 1\nmay x x end a\nstart 1 a x\n",
                b"refusal 15 layer 3 place 39\n",
            ),
            (
                b"states 2 a b\nsymbols 2 x y\nrules 1\nmay A x end a\nstart 1 a x\n",
                b"refusal 15 layer 3 place 39\n",
            ),
            (
                b"states 2 a b\nsymbols 2 x y\nrules 1\nmay a z end a\nstart 1 a x\n",
                b"refusal 15 layer 3 place 41\n",
            ),
            (
                b"states 2 a b\nsymbols 2 x y\nrules 1\nmay a b end a\nstart 1 a x\n",
                b"refusal 15 layer 3 place 41\n",
            ),
            (
                b"states 2 a b\nsymbols 2 x y\nrules 1\nmay a x begin a\nstart 1 a x\n",
                b"refusal 15 layer 3 place 43\n",
            ),
            (
                b"states 2 a b\nsymbols 2 x y\nrules 1\nmay a x End a\nstart 1 a x\n",
                b"refusal 15 layer 3 place 43\n",
            ),
            (
                b"states 2 a b\nsymbols 2 x y\nrules 1\nmay a x en a\nstart 1 a x\n",
                b"refusal 15 layer 3 place 43\n",
            ),
            (
                b"states 2 a b\nsymbols 2 x y\nrules 1\nmay a x ends a\nstart 1 a x\n",
                b"refusal 15 layer 3 place 43\n",
            ),
            (
                b"states 2 a b\nsymbols 2 x y\nrules 1\nmay a x 8 a\nstart 1 a x\n",
                b"refusal 15 layer 3 place 43\n",
            ),
            (
                b"states 2 a b\nsymbols 2 x y\nrules 1\nmay a x end y\nstart 1 a x\n",
                b"refusal 15 layer 3 place 47\n",
            ),
            (
                b"states 2 a b\nsymbols 2 x y\nrules 1\nmay a x gap b a\nstart 1 a x\n",
                b"refusal 15 layer 3 place 49\n",
            ),
            (
                b"states 2 a b\nsymbols 2 x y\nrules 1\nmay a x calib b w x\nstart 1 a x\n",
                b"refusal 15 layer 3 place 51\n",
            ),
            (
                b"states 2 a b\nsymbols 2 x y\nrules 1\nmay a x calib b x w\nstart 1 a x\n",
                b"refusal 15 layer 3 place 53\n",
            ),
            (
                b"states 2 a b\nsymbols 2 x y\nrules 2\nmay a x end a\nmay a y end c\nstart 1 a x\n",
                b"refusal 15 layer 3 place 61\n",
            ),
        ],
    )
}

// The start is a state and then a symbol.
#[test]
fn unknown_at_start(rt: HostRuntime) -> Result<(), Fail> {
    all_told(
        &rt,
        &[
            (
                b"states 2 a b\nsymbols 2 x y\nrules 0\nstart 1 c x\n",
                b"refusal 15 layer 3 place 43\n",
            ),
            (
                b"states 2 a b\nsymbols 2 x y\nrules 0\nstart 1 x a\n",
                b"refusal 15 layer 3 place 43\n",
            ),
            (
                b"states 2 a b\nsymbols 2 x y\nrules 0\nstart 1 0 x\n",
                b"refusal 15 layer 3 place 43\n",
            ),
            (
                b"states 2 a b\nsymbols 2 x y\nrules 0\nstart 1 a z\n",
                b"refusal 15 layer 3 place 45\n",
            ),
            (
                b"states 2 a b\nsymbols 2 x y\nrules 0\nstart 1 a b\n",
                b"refusal 15 layer 3 place 45\n",
            ),
            (
                b"states 2 a b\nsymbols 2 x y\nrules 0\nstart 1 a X\n",
                b"refusal 15 layer 3 place 45\n",
            ),
            (
                b"states 2 a b\nsymbols 2 x y\nrules 0\nstart 1 a xy",
                b"refusal 15 layer 3 place 45\n",
            ),
        ],
    )
}

// A name twice in its section is told at its later place, before anything after it is read.
#[test]
fn twice(rt: HostRuntime) -> Result<(), Fail> {
    all_told(
        &rt,
        &[
            (
                b"states 2 a a\nsymbols 1 x\n",
                b"refusal 16 layer 3 place 11\n",
            ),
            (b"states 3 a b a\n", b"refusal 16 layer 3 place 13\n"),
            (b"states 3 a b b\n", b"refusal 16 layer 3 place 13\n"),
            (
                b"states 8 a b c d e f g d\n",
                b"refusal 16 layer 3 place 23\n",
            ),
            (b"states 8 a a a a\n", b"refusal 16 layer 3 place 11\n"),
            (b"states 2 12 12\n", b"refusal 16 layer 3 place 12\n"),
            (
                b"states 2 states states\n",
                b"refusal 16 layer 3 place 16\n",
            ),
            (
                b"states 1 a\nsymbols 2 x x\nrules 0\n",
                b"refusal 16 layer 3 place 23\n",
            ),
            (
                b"states 1 a\nsymbols 4 a b c a\n",
                b"refusal 16 layer 3 place 27\n",
            ),
            (
                b"states 1 s\nsymbols 16 a b c d e f g h i j k l m n o o\n",
                b"refusal 16 layer 3 place 52\n",
            ),
            (
                b"states 2 abcdefghijklmnop abcdefghijklmnop\n",
                b"refusal 16 layer 3 place 26\n",
            ),
            (b"states 2 a a", b"refusal 16 layer 3 place 11\n"),
        ],
    )
}
