// Faults of bytes and words: 11 at a byte that is not allowed, 12 at a word of over 16 bytes.
use crate::told::all_told;
use std::test::Fail;

// A byte below 33 that is no blank, or above 126, is refused inside a word, first, in the middle or last.
#[test]
fn inside_words(rt: HostRuntime) -> Result<(), Fail> {
    all_told(
        &rt,
        &[
            (b"\x09states 1 a\n", b"refusal 11 layer 1 place 0\n"),
            (b"st\x09ates 1 a\n", b"refusal 11 layer 1 place 2\n"),
            (b"states\x09 1 a\n", b"refusal 11 layer 1 place 6\n"),
            (b"states 1\x0d\n", b"refusal 11 layer 1 place 8\n"),
            (b"states 1 a\x1f\n", b"refusal 11 layer 1 place 10\n"),
            (b"states 1 \x7fa\n", b"refusal 11 layer 1 place 9\n"),
            (b"states 1 a\x80b\n", b"refusal 11 layer 1 place 10\n"),
            (b"states 1 a\xff", b"refusal 11 layer 1 place 10\n"),
            (
                b"states 2 a b\nsymbols 2 x y\nrules 1\nmay a x tri\x00gger a x x\n",
                b"refusal 11 layer 1 place 46\n",
            ),
            (
                b"states 2 a b\nsymbols 2 x y\nrules 1\nm\xe4y a x end a\n",
                b"refusal 11 layer 1 place 36\n",
            ),
            (
                b"states 2 a b\nsymbols 2 x y\nrules 1\nmay z\x7f x end a\n",
                b"refusal 11 layer 1 place 40\n",
            ),
            (
                b"states 2 a b\nsymbols 2 x y\nrules 9\x1f7\n",
                b"refusal 11 layer 1 place 34\n",
            ),
            (
                b"states 2 a b\nsymbols 2 x y\nrules 0\nstart 1 a x\x7f",
                b"refusal 11 layer 1 place 46\n",
            ),
            (
                b"states 2 a b\nsymbols 2 x y\nrules 0\nstart 1 a x\x0b\n",
                b"refusal 11 layer 1 place 46\n",
            ),
        ],
    )
}

// A byte that is not allowed and stands alone is no blank, but the word that is due.
#[test]
fn between_words(rt: HostRuntime) -> Result<(), Fail> {
    all_told(
        &rt,
        &[
            (b"\x00", b"refusal 11 layer 1 place 0\n"),
            (b"\xff\xfe", b"refusal 11 layer 1 place 0\n"),
            (b"states \x09 1 a\n", b"refusal 11 layer 1 place 7\n"),
            (b"states 1 \x1f a\n", b"refusal 11 layer 1 place 9\n"),
            (
                b"states 1 a \x7f symbols 1 x\n",
                b"refusal 11 layer 1 place 11\n",
            ),
            (
                b"states 1 a\n\x80\nsymbols 1 x\n",
                b"refusal 11 layer 1 place 11\n",
            ),
            (b"states 1 a\n\xff", b"refusal 11 layer 1 place 11\n"),
            (
                b"states 2 a b\nsymbols 2 x y\nrules 0\nstart 1 a x\n\x09",
                b"refusal 11 layer 1 place 47\n",
            ),
            (
                b"states 2 a b\nsymbols 2 x y\nrules 0\nstart 1 a x\n  \n\xff",
                b"refusal 11 layer 1 place 50\n",
            ),
            (
                b"states 2 a b\nsymbols 2 x y\nrules 0\nstart 1 a x\nfurther\x80 more",
                b"refusal 11 layer 1 place 54\n",
            ),
            (
                b"states 1 a ! symbols 1 x\n",
                b"refusal 13 layer 2 place 11\n",
            ),
            (
                b"states 1 a ~ symbols 1 x\n",
                b"refusal 13 layer 2 place 11\n",
            ),
        ],
    )
}

// A word of 16 bytes is judged by what is due, one of 17 is refused wherever it stands.
#[test]
fn long_words(rt: HostRuntime) -> Result<(), Fail> {
    all_told(
        &rt,
        &[
            (b"abcdefghijklmnop 1 a\n", b"refusal 13 layer 2 place 0\n"),
            (b"abcdefghijklmnopq 1 a\n", b"refusal 12 layer 1 place 0\n"),
            (b"abcdefghijklmnopq", b"refusal 12 layer 1 place 0\n"),
            (
                b"states 0000000000000001 a\n",
                b"refusal 14 layer 2 place 7\n",
            ),
            (
                b"states 00000000000000001 a\n",
                b"refusal 12 layer 1 place 7\n",
            ),
            (
                b"states 1 abcdefghijklmnopq\n",
                b"refusal 12 layer 1 place 9\n",
            ),
            (
                b"states 2 a abcdefghijklmnopqabcdefghijklmnopqabcdefghijklmnopq\n",
                b"refusal 12 layer 1 place 11\n",
            ),
            (
                b"states 2 a b\nsymbols 2 x y\nrules 1\nabcdefghijklmnopq a x end a\n",
                b"refusal 12 layer 1 place 35\n",
            ),
            (
                b"states 2 a b\nsymbols 2 x y\nrules 1\nabcdefghijklmnop a x end a\n",
                b"refusal 13 layer 2 place 35\n",
            ),
            (
                b"states 2 a b\nsymbols 2 x y\nrules 1\nmay abcdefghijklmnopq x end a\n",
                b"refusal 12 layer 1 place 39\n",
            ),
            (
                b"states 2 a b\nsymbols 2 x y\nrules 1\nmay a x abcdefghijklmnop a\n",
                b"refusal 15 layer 3 place 43\n",
            ),
            (
                b"states 2 a b\nsymbols 2 x y\nrules 1\nmay a x abcdefghijklmnopq a\n",
                b"refusal 12 layer 1 place 43\n",
            ),
            (
                b"states 2 a b\nsymbols 2 x y\nrules 0\nstart 1 a abcdefghijklmnopq",
                b"refusal 12 layer 1 place 45\n",
            ),
            (
                b"states 2 a b\nsymbols 2 x y\nrules 0\nstart 1 a x\nabcdefghijklmnopq",
                b"refusal 12 layer 1 place 47\n",
            ),
            (
                b"states 2 a b\nsymbols 2 x y\nrules 0\nstart 1 a x\nabcdefghijklmnop",
                b"refusal 13 layer 2 place 47\n",
            ),
        ],
    )
}

// Of several faults the first is told: 11 before 12 in one word, and nothing after an earlier fault.
#[test]
fn firsts(rt: HostRuntime) -> Result<(), Fail> {
    all_told(
        &rt,
        &[
            (
                b"abcdefghijklmnopqrs\x09tuv 1 a\n",
                b"refusal 11 layer 1 place 19\n",
            ),
            (
                b"abc\x80efghijklmnopqrstuvw 1 a\n",
                b"refusal 11 layer 1 place 3\n",
            ),
            (
                b"states 1 abcdefghijklmnopq\xff\n",
                b"refusal 11 layer 1 place 26\n",
            ),
            (
                b"states 2 a b\nsymbols 2 x y\nrules 0\nstart 1 a x\nabcdefghijklmnopq\x7f\x80",
                b"refusal 11 layer 1 place 64\n",
            ),
            (b"abcdefghijklmnopq \x80\n", b"refusal 12 layer 1 place 0\n"),
            (
                b"states \x80 abcdefghijklmnopq\n",
                b"refusal 11 layer 1 place 7\n",
            ),
            (b"stats 1 a\x80\n", b"refusal 13 layer 2 place 0\n"),
            (b"states 0 \x80\n", b"refusal 14 layer 2 place 7\n"),
            (b"states 2 a a \x80\n", b"refusal 16 layer 3 place 11\n"),
            (
                b"states 2 a b\nsymbols 2 x y\nrules 1\nmay c x \x09 a\n",
                b"refusal 15 layer 3 place 39\n",
            ),
            (
                b"states 2 a b\nsymbols 2 x y\nrules 2\nmay a x end a\nmay a x end a\n\x80",
                b"refusal 17 layer 3 place 49\n",
            ),
            (
                b"states 2 a b\nsymbols 2 x y\nrules 0\nstart 1 a x\nmore \x80",
                b"refusal 13 layer 2 place 47\n",
            ),
            (
                b"states 2 a b\nsymbols 2 x y\nrules 0\nstart 1 a x\nmore abcdefghijklmnopq",
                b"refusal 13 layer 2 place 47\n",
            ),
            (b"symbols 2 x x", b"refusal 13 layer 2 place 0\n"),
        ],
    )
}
