// Texts that are accepted, and how their rules are numbered.
use crate::told::all_told;
use std::test::Fail;

// Blanks and line ends are alike, and any number of them parts two words.
#[test]
fn layouts(rt: HostRuntime) -> Result<(), Fail> {
    all_told(
        &rt,
        &[
            (
                b"states 1 idle\nsymbols 2 base event\nrules 2\nmay idle base trigger idle event base\nmay idle event end idle\nstart 1 idle base\n",
                b"accepted\nslot 0 may 0 0 trigger 0 1 0\nslot 1 may 0 1 end 0\nstart 0 0\n",
            ),
            (
                b"states 1 idle\nsymbols 2 base event\nrules 2\nmay idle base trigger idle event base\nmay idle event end idle\nstart 1 idle base",
                b"accepted\nslot 0 may 0 0 trigger 0 1 0\nslot 1 may 0 1 end 0\nstart 0 0\n",
            ),
            (
                b"\n \nstates 1 idle\nsymbols 2 base event\nrules 2\nmay idle base trigger idle event base\nmay idle event end idle\nstart 1 idle base\n \n\n  ",
                b"accepted\nslot 0 may 0 0 trigger 0 1 0\nslot 1 may 0 1 end 0\nstart 0 0\n",
            ),
            (
                b"states 1 idle symbols 2 base event rules 2 may idle base trigger idle event base may idle event end idle start 1 idle base ",
                b"accepted\nslot 0 may 0 0 trigger 0 1 0\nslot 1 may 0 1 end 0\nstart 0 0\n",
            ),
            (
                b"states\n1\nidle\nsymbols\n2\nbase\nevent\nrules\n2\nmay\nidle\nbase\ntrigger\nidle\nevent\nbase\nmay\nidle\nevent\nend\nidle\nstart\n1\nidle\nbase\n",
                b"accepted\nslot 0 may 0 0 trigger 0 1 0\nslot 1 may 0 1 end 0\nstart 0 0\n",
            ),
            (
                b"states   \n 1   \n idle\nsymbols   \n 2   \n base   \n event\nrules   \n 2\nmay   \n idle   \n base   \n trigger   \n idle   \n event   \n base\nmay   \n idle   \n event   \n end   \n idle\nstart   \n 1   \n idle   \n base\n",
                b"accepted\nslot 0 may 0 0 trigger 0 1 0\nslot 1 may 0 1 end 0\nstart 0 0\n",
            ),
            (
                b"states 1 a symbols 1 x rules 0 start 1 a x",
                b"accepted\nstart 0 0\n",
            ),
            (
                b"states 2 a b\nsymbols 2 x y\nrules 0\nstart 1 b y\n",
                b"accepted\nstart 1 1\n",
            ),
            (
                b"states 2 a b\nsymbols 2 x y\nrules 0\nstart 1 a y\n",
                b"accepted\nstart 0 1\n",
            ),
            (
                b"states 2 a b\nsymbols 2 x y\nrules 0\nstart 1 b x\n",
                b"accepted\nstart 1 0\n",
            ),
        ],
    )
}

// A name is any word: like a keyword, like a number, or of one sign. Each section has its own.
#[test]
fn names(rt: HostRuntime) -> Result<(), Fail> {
    all_told(
        &rt,
        &[
            (
                b"states 3 states may 12\nsymbols 3 rules end 0\nrules 1\nmust may end end 12\nstart 1 12 0\n",
                b"accepted\nslot 0 must 1 1 end 2\nstart 2 2\n",
            ),
            (
                b"states 2 start must\nsymbols 2 start trigger\nrules 2\nmay start trigger trigger must start trigger\nmust must start gap start trigger\nstart 1 must start\n",
                b"accepted\nslot 0 may 0 1 trigger 1 0 1\nslot 1 must 1 0 gap 0 1\nstart 1 0\n",
            ),
            (
                b"states 1 a\nsymbols 1 a\nrules 1\nmay a a clock a a\nstart 1 a a\n",
                b"accepted\nslot 0 may 0 0 clock 0 0\nstart 0 0\n",
            ),
            (
                b"states 2 a A\nsymbols 3 x X xx\nrules 1\nmay A X sent a\nstart 1 A xx\n",
                b"accepted\nslot 0 may 1 1 sent 0\nstart 1 2\n",
            ),
            (
                b"states 2 ! ~\nsymbols 2 \" \\\nrules 1\nmay ~ \\ sent !\nstart 1 ~ \"\n",
                b"accepted\nslot 0 may 1 1 sent 0\nstart 1 0\n",
            ),
            (
                b"states 2 abcdefghijklmnop abcdefghijklmno\nsymbols 1 abcdefghijklmnop\nrules 0\nstart 1 abcdefghijklmno abcdefghijklmnop\n",
                b"accepted\nstart 1 0\n",
            ),
            (
                b"states 8 a b c d e f g h\nsymbols 1 x\nrules 1\nmay h x sample a x\nstart 1 h x\n",
                b"accepted\nslot 0 may 7 0 sample 0 0\nstart 7 0\n",
            ),
            (
                b"states 1 s\nsymbols 16 a b c d e f g h i j k l m n o p\nrules 1\nmust s p trigger s p o\nstart 1 s p\n",
                b"accepted\nslot 0 must 0 15 trigger 0 15 14\nstart 0 15\n",
            ),
            (
                b"states 1 0\nsymbols 3 00 01 1\nrules 1\nmay 0 1 upload 0 01 00\nstart 1 0 01\n",
                b"accepted\nslot 0 may 0 2 upload 0 1 0\nstart 0 1\n",
            ),
        ],
    )
}

// Slots come in ascending order of state, top, event, new state, upper and lower symbol, whatever the text's order and the modes.
#[test]
fn orders(rt: HostRuntime) -> Result<(), Fail> {
    all_told(
        &rt,
        &[
            (
                b"states 2 a b\nsymbols 2 x y\nrules 2\nmay b x end a\nmust a x end a\nstart 1 a x\n",
                b"accepted\nslot 0 must 0 0 end 0\nslot 1 may 1 0 end 0\nstart 0 0\n",
            ),
            (
                b"states 2 a b\nsymbols 2 x y\nrules 2\nmay a y end a\nmay a x end b\nstart 1 a x\n",
                b"accepted\nslot 0 may 0 0 end 1\nslot 1 may 0 1 end 0\nstart 0 0\n",
            ),
            (
                b"states 2 a b\nsymbols 2 x y\nrules 2\nmay a x end a\nmust a x gap b y\nstart 1 a x\n",
                b"accepted\nslot 0 must 0 0 gap 1 1\nslot 1 may 0 0 end 0\nstart 0 0\n",
            ),
            (
                b"states 2 a b\nsymbols 2 x y\nrules 2\nmay a x end b\nmay a x end a\nstart 1 a x\n",
                b"accepted\nslot 0 may 0 0 end 0\nslot 1 may 0 0 end 1\nstart 0 0\n",
            ),
            (
                b"states 2 a b\nsymbols 2 x y\nrules 2\nmust a x gap a y\nmay a x gap a x\nstart 1 a x\n",
                b"accepted\nslot 0 may 0 0 gap 0 0\nslot 1 must 0 0 gap 0 1\nstart 0 0\n",
            ),
            (
                b"states 2 a b\nsymbols 2 x y\nrules 4\nmay a x calib a y y\nmay a x calib a y x\nmust a x calib a x y\nmay a x calib a x x\nstart 1 a x\n",
                b"accepted\nslot 0 may 0 0 calib 0 0 0\nslot 1 must 0 0 calib 0 0 1\nslot 2 may 0 0 calib 0 1 0\nslot 3 may 0 0 calib 0 1 1\nstart 0 0\n",
            ),
            (
                b"states 2 a b\nsymbols 2 x y\nrules 3\nmust a x end a\nmust a y end a\nmust b x end a\nstart 1 a x\n",
                b"accepted\nslot 0 must 0 0 end 0\nslot 1 must 0 1 end 0\nslot 2 must 1 0 end 0\nstart 0 0\n",
            ),
            (
                b"states 2 a b\nsymbols 2 x y\nrules 12\nmay a y leave b\nmay a y sent b\nmay a y caldone b\nmay a y end b\nmay a y clock b x\nmay a y resend b y\nmay a y gap b x\nmay a y sample b y\nmay a y service b x y\nmay a y upload b y x\nmay a y calib b x x\nmay a y trigger b y y\nstart 1 a x\n",
                b"accepted\nslot 0 may 0 1 trigger 1 1 1\nslot 1 may 0 1 calib 1 0 0\nslot 2 may 0 1 upload 1 1 0\nslot 3 may 0 1 service 1 0 1\nslot 4 may 0 1 sample 1 1\nslot 5 may 0 1 gap 1 0\nslot 6 may 0 1 resend 1 1\nslot 7 may 0 1 clock 1 0\nslot 8 may 0 1 end 1\nslot 9 may 0 1 caldone 1\nslot 10 may 0 1 sent 1\nslot 11 may 0 1 leave 1\nstart 0 0\n",
            ),
        ],
    )
}
