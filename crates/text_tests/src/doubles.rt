// Rules listed before, the mode aside: 17 at the later rule's first word.
use crate::told::all_told;
use std::test::Fail;

// A double is told at its mode, whichever its mode is and wherever the first one stands.
#[test]
fn told_at_the_later(rt: HostRuntime) -> Result<(), Fail> {
    all_told(
        &rt,
        &[
            (
                b"states 2 a b\nsymbols 2 x y\nrules 2\nmay a x end a\nmay a x end a\nstart 1 a x\n",
                b"refusal 17 layer 3 place 49\n",
            ),
            (
                b"states 2 a b\nsymbols 2 x y\nrules 2\nmay a x end a\nmust a x end a\nstart 1 a x\n",
                b"refusal 17 layer 3 place 49\n",
            ),
            (
                b"states 2 a b\nsymbols 2 x y\nrules 2\nmust a x end a\nmay a x end a\nstart 1 a x\n",
                b"refusal 17 layer 3 place 50\n",
            ),
            (
                b"states 2 a b\nsymbols 2 x y\nrules 2\nmust a x gap b y\n  must a x gap b y\nstart 1 a x\n",
                b"refusal 17 layer 3 place 54\n",
            ),
            (
                b"states 2 a b\nsymbols 2 x y\nrules 2\nmay a x calib b y x\nmust a x calib b y x\nstart 1 a x\n",
                b"refusal 17 layer 3 place 55\n",
            ),
            (
                b"states 2 a b\nsymbols 2 x y\nrules 3\nmay a x end a\nmay a y end a\nmay a x end a\nstart 1 a x\n",
                b"refusal 17 layer 3 place 63\n",
            ),
            (
                b"states 2 a b\nsymbols 2 x y\nrules 3\nmay a x end a\nmay a y end a\nmust a y end a\nstart 1 a x\n",
                b"refusal 17 layer 3 place 63\n",
            ),
            (
                b"states 2 a b\nsymbols 2 x y\nrules 4\nmay b x end a\nmay a y end a\nmay a x end b\nmay b x end a\nstart 1 a x\n",
                b"refusal 17 layer 3 place 77\n",
            ),
            (
                b"states 2 a b\nsymbols 2 x y\nrules 3\nmay a x end a\nmay a x end a\nmay a x end a\nstart 1 a x\n",
                b"refusal 17 layer 3 place 49\n",
            ),
            (
                b"states 2 a b\nsymbols 2 x y\nrules 2\nmay a x end a may\na x\nend a\nstart 1 a x\n",
                b"refusal 17 layer 3 place 49\n",
            ),
        ],
    )
}

// A double is told once its last word is read, and not before.
#[test]
fn told_when_read(rt: HostRuntime) -> Result<(), Fail> {
    all_told(
        &rt,
        &[
            (
                b"states 2 a b\nsymbols 2 x y\nrules 2\nmay a x end a\nmay a x end a",
                b"refusal 17 layer 3 place 49\n",
            ),
            (
                b"states 2 a b\nsymbols 2 x y\nrules 2\nmay a x end a\nmay a x end a\nmay a",
                b"refusal 17 layer 3 place 49\n",
            ),
            (
                b"states 2 a b\nsymbols 2 x y\nrules 3\nmay a x end a\nmust a x end a\nmay c x end a\n",
                b"refusal 17 layer 3 place 49\n",
            ),
            (
                b"states 2 a b\nsymbols 2 x y\nrules 2\nmay a x end a\nmay a x end",
                b"refusal 13 layer 2 place 60\n",
            ),
            (
                b"states 2 a b\nsymbols 2 x y\nrules 2\nmay a x gap a x\nmay a x gap a z\n",
                b"refusal 15 layer 3 place 65\n",
            ),
            (
                b"states 2 a b\nsymbols 2 x y\nrules 2\nmay a x calib a x y\nmay a x calib a x\x80 y\n",
                b"refusal 11 layer 1 place 72\n",
            ),
            (
                b"states 2 a b\nsymbols 2 x y\nrules 1\nmay a x end a\nmay a x end a\nstart 1 a x\n",
                b"refusal 13 layer 2 place 49\n",
            ),
        ],
    )
}

// Rules that differ in anything but the mode stand beside each other.
#[test]
fn no_doubles(rt: HostRuntime) -> Result<(), Fail> {
    all_told(
        &rt,
        &[
            (
                b"states 2 a b\nsymbols 2 x y\nrules 2\nmay a x calib a x y\nmay a x calib a y x\nstart 1 a x\n",
                b"accepted\nslot 0 may 0 0 calib 0 0 1\nslot 1 may 0 0 calib 0 1 0\nstart 0 0\n",
            ),
            (
                b"states 2 a b\nsymbols 2 x y\nrules 2\nmay a x calib a x y\nmust a x calib a x x\nstart 1 a x\n",
                b"accepted\nslot 0 must 0 0 calib 0 0 0\nslot 1 may 0 0 calib 0 0 1\nstart 0 0\n",
            ),
            (
                b"states 2 a b\nsymbols 2 x y\nrules 2\nmay a x trigger a x x\nmay a x calib a x x\nstart 1 a x\n",
                b"accepted\nslot 0 may 0 0 trigger 0 0 0\nslot 1 may 0 0 calib 0 0 0\nstart 0 0\n",
            ),
            (
                b"states 2 a b\nsymbols 2 x y\nrules 2\nmay a x sample a x\nmay a x end a\nstart 1 a x\n",
                b"accepted\nslot 0 may 0 0 sample 0 0\nslot 1 may 0 0 end 0\nstart 0 0\n",
            ),
            (
                b"states 2 a b\nsymbols 2 x y\nrules 2\nmust a x end b\nmust b x end a\nstart 1 a x\n",
                b"accepted\nslot 0 must 0 0 end 1\nslot 1 must 1 0 end 0\nstart 0 0\n",
            ),
        ],
    )
}
