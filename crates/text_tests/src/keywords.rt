// Another keyword or mode is due, or no word: 13 at the word.
use crate::told::all_told;
use std::test::Fail;

// Each section begins with its keyword, spelled in small letters.
#[test]
fn headings(rt: HostRuntime) -> Result<(), Fail> {
    all_told(
        &rt,
        &[
            (b"States 1 a\n", b"refusal 13 layer 2 place 0\n"),
            (b"STATES 1 a\n", b"refusal 13 layer 2 place 0\n"),
            (b"state 1 a\n", b"refusal 13 layer 2 place 0\n"),
            (b"statess 1 a\n", b"refusal 13 layer 2 place 0\n"),
            (b"1 a\n", b"refusal 13 layer 2 place 0\n"),
            (
                b"symbols 1 x\nstates 1 a\n",
                b"refusal 13 layer 2 place 0\n",
            ),
            (
                b"states 1 a\nSymbols 1 x\n",
                b"refusal 13 layer 2 place 11\n",
            ),
            (b"states 1 a\nrules 0\n", b"refusal 13 layer 2 place 11\n"),
            (
                b"states 1 a\nstates 1 b\n",
                b"refusal 13 layer 2 place 11\n",
            ),
            (
                b"states 2 a b\nsymbols 2 x y\nRules 0\n",
                b"refusal 13 layer 2 place 27\n",
            ),
            (
                b"states 2 a b\nsymbols 2 x y\nstart 1 a x\n",
                b"refusal 13 layer 2 place 27\n",
            ),
            (
                b"states 2 a b\nsymbols 2 x y\nmay a x end a\n",
                b"refusal 13 layer 2 place 27\n",
            ),
            (
                b"states 2 a b\nsymbols 2 x y\nrules 0\nStart 1 a x\n",
                b"refusal 13 layer 2 place 35\n",
            ),
            (
                b"states 2 a b\nsymbols 2 x y\nrules 0\nrules 0\n",
                b"refusal 13 layer 2 place 35\n",
            ),
            (
                b"states 2 a b\nsymbols 2 x y\nrules 0\nend\n",
                b"refusal 13 layer 2 place 35\n",
            ),
        ],
    )
}

// A rule begins with its mode.
#[test]
fn modes(rt: HostRuntime) -> Result<(), Fail> {
    all_told(
        &rt,
        &[
            (
                b"states 2 a b\nsymbols 2 x y\nrules 1\nMay a x end a\n",
                b"refusal 13 layer 2 place 35\n",
            ),
            (
                b"states 2 a b\nsymbols 2 x y\nrules 1\nMUST a x end a\n",
                b"refusal 13 layer 2 place 35\n",
            ),
            (
                b"states 2 a b\nsymbols 2 x y\nrules 1\nmays a x end a\n",
                b"refusal 13 layer 2 place 35\n",
            ),
            (
                b"states 2 a b\nsymbols 2 x y\nrules 1\nma a x end a\n",
                b"refusal 13 layer 2 place 35\n",
            ),
            (
                b"states 2 a b\nsymbols 2 x y\nrules 1\nmus a x end a\n",
                b"refusal 13 layer 2 place 35\n",
            ),
            (
                b"states 2 a b\nsymbols 2 x y\nrules 1\na x end a\n",
                b"refusal 13 layer 2 place 35\n",
            ),
            (
                b"states 2 a b\nsymbols 2 x y\nrules 1\nstart 1 a x\n",
                b"refusal 13 layer 2 place 35\n",
            ),
            (
                b"states 2 a b\nsymbols 2 x y\nrules 2\nmay a x end a\nstart 1 a x\n",
                b"refusal 13 layer 2 place 49\n",
            ),
            (
                b"states 2 a b\nsymbols 2 x y\nrules 2\nmust a x end a\nmustn't a x end b\n",
                b"refusal 13 layer 2 place 50\n",
            ),
        ],
    )
}

// More entries than the count, or fewer, come to light at the next keyword.
#[test]
fn counted(rt: HostRuntime) -> Result<(), Fail> {
    all_told(
        &rt,
        &[
            (
                b"states 1 a b\nsymbols 1 x\n",
                b"refusal 13 layer 2 place 11\n",
            ),
            (
                b"states 2 a\nsymbols 1 x\n",
                b"refusal 13 layer 2 place 19\n",
            ),
            (
                b"states 1 a\nsymbols 1 x y\nrules 0\n",
                b"refusal 13 layer 2 place 23\n",
            ),
            (
                b"states 1 a\nsymbols 2 x\nrules 0\n",
                b"refusal 13 layer 2 place 29\n",
            ),
            (
                b"states 2 a b\nsymbols 2 x y\nrules 0\nmay a x end a\nstart 1 a x\n",
                b"refusal 13 layer 2 place 35\n",
            ),
            (
                b"states 2 a b\nsymbols 2 x y\nrules 1\nmay a x end a\nmust a y end a\nstart 1 a x\n",
                b"refusal 13 layer 2 place 49\n",
            ),
            (
                b"states 2 a b\nsymbols 2 x y\nrules 0\nstart 1 a x b y\n",
                b"refusal 13 layer 2 place 47\n",
            ),
            (
                b"states 2 a b\nsymbols 2 x y\nrules 0\nstart 1 a x\nstart 1 a x\n",
                b"refusal 13 layer 2 place 47\n",
            ),
            (
                b"states 2 a b\nsymbols 2 x y\nrules 0\nstart 1 a x\n.",
                b"refusal 13 layer 2 place 47\n",
            ),
            (
                b"states 2 a b\nsymbols 2 x y\nrules 0\nstart 1 a x\n\n\n  0",
                b"refusal 13 layer 2 place 51\n",
            ),
        ],
    )
}

// An open rule lists two symbols, a step rule one, a close rule none.
#[test]
fn symbols_of_rules(rt: HostRuntime) -> Result<(), Fail> {
    all_told(
        &rt,
        &[
            (
                b"states 2 a b\nsymbols 2 x y\nrules 1\nmay a x trigger a x\nstart 1 a x\n",
                b"refusal 15 layer 3 place 55\n",
            ),
            (
                b"states 2 a b\nsymbols 2 x y\nrules 1\nmay a x service a\nstart 1 a x\n",
                b"refusal 15 layer 3 place 53\n",
            ),
            (
                b"states 2 a b\nsymbols 2 x y\nrules 1\nmay a x upload a x y x\nstart 1 a x\n",
                b"refusal 13 layer 2 place 56\n",
            ),
            (
                b"states 2 a b\nsymbols 2 x y\nrules 2\nmay a x calib a x\nmay a x end a\nstart 1 a x\n",
                b"refusal 15 layer 3 place 53\n",
            ),
            (
                b"states 2 a b\nsymbols 2 x y\nrules 1\nmay a x sample a\nstart 1 a x\n",
                b"refusal 15 layer 3 place 52\n",
            ),
            (
                b"states 2 a b\nsymbols 2 x y\nrules 1\nmay a x gap a x y\nstart 1 a x\n",
                b"refusal 13 layer 2 place 51\n",
            ),
            (
                b"states 2 a b\nsymbols 2 x y\nrules 2\nmay a x clock a\nmust a x end a\nstart 1 a x\n",
                b"refusal 15 layer 3 place 51\n",
            ),
            (
                b"states 2 a b\nsymbols 2 x y\nrules 1\nmay a x end a x\nstart 1 a x\n",
                b"refusal 13 layer 2 place 49\n",
            ),
            (
                b"states 2 a b\nsymbols 2 x y\nrules 1\nmay a x leave a x y\nstart 1 a x\n",
                b"refusal 13 layer 2 place 51\n",
            ),
            (
                b"states 2 a b\nsymbols 2 x y\nrules 2\nmay a x sent a\nx\nmay a x end a\nstart 1 a x\n",
                b"refusal 13 layer 2 place 50\n",
            ),
            (
                b"states 1 a\nsymbols 2 x start\nrules 1\nmay a x resend a\nstart 1 a x\n",
                b"refusal 13 layer 2 place 60\n",
            ),
            (
                b"states 2 a b\nsymbols 2 x y\nrules 1\nmay a x trigger a x y\nstart 1 a x\n",
                b"accepted\nslot 0 may 0 0 trigger 0 0 1\nstart 0 0\n",
            ),
            (
                b"states 2 a b\nsymbols 2 x y\nrules 1\nmay a x resend a y\nstart 1 a x\n",
                b"accepted\nslot 0 may 0 0 resend 0 1\nstart 0 0\n",
            ),
            (
                b"states 2 a b\nsymbols 2 x y\nrules 1\nmay a x caldone a\nstart 1 a x\n",
                b"accepted\nslot 0 may 0 0 caldone 0\nstart 0 0\n",
            ),
        ],
    )
}
