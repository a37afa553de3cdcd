// Counts that are not plain or not in range: 14 at the count.
use crate::told::all_told;
use std::test::Fail;

// A count has one to four digits, with no 0 in front of another, and nothing else.
#[test]
fn plain(rt: HostRuntime) -> Result<(), Fail> {
    all_told(
        &rt,
        &[
            (b"states 00 a\n", b"refusal 14 layer 2 place 7\n"),
            (b"states 01 a\n", b"refusal 14 layer 2 place 7\n"),
            (b"states 0001 a\n", b"refusal 14 layer 2 place 7\n"),
            (b"states 00001 a\n", b"refusal 14 layer 2 place 7\n"),
            (b"states 12345 a\n", b"refusal 14 layer 2 place 7\n"),
            (b"states +1 a\n", b"refusal 14 layer 2 place 7\n"),
            (b"states -1 a\n", b"refusal 14 layer 2 place 7\n"),
            (b"states 1x a\n", b"refusal 14 layer 2 place 7\n"),
            (b"states x1 a\n", b"refusal 14 layer 2 place 7\n"),
            (b"states 1. a\n", b"refusal 14 layer 2 place 7\n"),
            (b"states 0x1 a\n", b"refusal 14 layer 2 place 7\n"),
            (b"states one a\n", b"refusal 14 layer 2 place 7\n"),
            (b"states 1/ a\n", b"refusal 14 layer 2 place 7\n"),
            (b"states 1: a\n", b"refusal 14 layer 2 place 7\n"),
            (b"states a\n", b"refusal 14 layer 2 place 7\n"),
            (b"states symbols\n", b"refusal 14 layer 2 place 7\n"),
        ],
    )
}

// There are 1 to 8 states, 1 to 16 symbols, 0 to 96 rules and 1 start.
#[test]
fn ranges(rt: HostRuntime) -> Result<(), Fail> {
    all_told(
        &rt,
        &[
            (b"states 0 symbols 1 x\n", b"refusal 14 layer 2 place 7\n"),
            (
                b"states 9 a b c d e f g h i\nsymbols 1 x\nrules 0\nstart 1 a x\n",
                b"refusal 14 layer 2 place 7\n",
            ),
            (b"states 10 a\n", b"refusal 14 layer 2 place 7\n"),
            (b"states 9999 a\n", b"refusal 14 layer 2 place 7\n"),
            (
                b"states 1 a\nsymbols 0\nrules 0\n",
                b"refusal 14 layer 2 place 19\n",
            ),
            (
                b"states 1 a\nsymbols 17 a b c d e f g h i j k l m n o p q\nrules 0\nstart 1 a a\n",
                b"refusal 14 layer 2 place 19\n",
            ),
            (
                b"states 1 a\nsymbols 016 x\n",
                b"refusal 14 layer 2 place 19\n",
            ),
            (
                b"states 2 a b\nsymbols 2 x y\nrules 97\n",
                b"refusal 14 layer 2 place 33\n",
            ),
            (
                b"states 2 a b\nsymbols 2 x y\nrules 100\n",
                b"refusal 14 layer 2 place 33\n",
            ),
            (
                b"states 2 a b\nsymbols 2 x y\nrules 9999\n",
                b"refusal 14 layer 2 place 33\n",
            ),
            (
                b"states 2 a b\nsymbols 2 x y\nrules 10000\n",
                b"refusal 14 layer 2 place 33\n",
            ),
            (
                b"states 2 a b\nsymbols 2 x y\nrules 00\nstart 1 a x\n",
                b"refusal 14 layer 2 place 33\n",
            ),
            (
                b"states 2 a b\nsymbols 2 x y\nrules 096\n",
                b"refusal 14 layer 2 place 33\n",
            ),
            (
                b"states 2 a b\nsymbols 2 x y\nrules 0\nstart 0\n",
                b"refusal 14 layer 2 place 41\n",
            ),
            (
                b"states 2 a b\nsymbols 2 x y\nrules 0\nstart 2 a x b y\n",
                b"refusal 14 layer 2 place 41\n",
            ),
            (
                b"states 2 a b\nsymbols 2 x y\nrules 0\nstart 01 a x\n",
                b"refusal 14 layer 2 place 41\n",
            ),
            (
                b"states 2 a b\nsymbols 2 x y\nrules 0\nstart a x\n",
                b"refusal 14 layer 2 place 41\n",
            ),
        ],
    )
}
