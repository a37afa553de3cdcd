// Texts at the limits that are too long to write out: their bytes, and their rules.
use crate::told::told;
use std::alloc::{AllocError, Global};
use std::test::Fail;

// A text with blanks after it, up to a length.
fn padded(heap: Global, text: &[u8], length: usize) -> Result<Vec<u8>, AllocError> {
    let mut v = text.to_vec(heap)?;
    v.resize(length, 32)?;
    Ok(v)
}

// A text of 20,000 bytes is read, one of 20,001 is not, whatever it holds.
#[test]
fn whole_texts(rt: HostRuntime) -> Result<(), Fail> {
    let good = b"states 1 a symbols 1 x rules 0 start 1 a x".as_slice();
    let table: [(&[u8], usize, &[u8]); 7] = [
        (good, 20000, b"accepted\nstart 0 0\n"),
        (good, 20001, b"refusal 10 layer 1 place 0\n"),
        (
            b"states 1 a symbols",
            20000,
            b"refusal 13 layer 2 place 20000\n",
        ),
        (b"", 20000, b"refusal 13 layer 2 place 20000\n"),
        (b"", 20001, b"refusal 10 layer 1 place 0\n"),
        (b"\x80", 20000, b"refusal 11 layer 1 place 0\n"),
        (b"\x80", 20001, b"refusal 10 layer 1 place 0\n"),
    ];
    for (text, length, expected) in table {
        told(&rt, padded(rt.alloc(), text, length)?.as_slice(), expected)?;
    }
    Ok(())
}

// The last byte of a text is judged like any other.
#[test]
fn last_bytes(rt: HostRuntime) -> Result<(), Fail> {
    let good = b"states 1 a symbols 1 x rules 0 start 1 a x";
    let table: [(usize, u8, &[u8]); 3] = [
        (19999, 33, b"refusal 13 layer 2 place 19999\n"),
        (19999, 127, b"refusal 11 layer 1 place 19999\n"),
        (20000, 33, b"refusal 10 layer 1 place 0\n"),
    ];
    for (length, last, expected) in table {
        let mut text = padded(rt.alloc(), good, length)?;
        text.push(last)?;
        told(&rt, text.as_slice(), expected)?;
    }
    Ok(())
}

// A text that counts `counted` rules and lists 12 for each of some states, last state and last symbol first: in each
// state, under each symbol, a window ends. States and symbols are named by their numbers.
fn with_rules(heap: Global, counted: u8, states: u8) -> Result<String, AllocError> {
    let mut s = format!(in heap;
        "states 8 0 1 2 3 4 5 6 7\nsymbols 13 0 1 2 3 4 5 6 7 8 9 10 11 12\nrules {counted}\n"
    )?;
    for state in (0..states).rev() {
        for top in (0..12u8).rev() {
            writeln!(s, "may {state} {top} end {state}")?;
        }
    }
    Ok(s)
}

// What is told of such a text, where it is accepted.
fn with_slots(heap: Global, states: u8) -> Result<String, AllocError> {
    let mut s = format!(in heap; "accepted\n")?;
    for state in 0..states {
        for top in 0..12u8 {
            let slot = 12 * u16::from(state) + u16::from(top);
            writeln!(s, "slot {slot} may {state} {top} end {state}")?;
        }
    }
    s.push_str("start 7 12\n")?;
    Ok(s)
}

// 96 rules are read; a count of 97 is refused at the count, and a 97th rule where the start is due.
#[test]
fn many_rules(rt: HostRuntime) -> Result<(), Fail> {
    let heap = rt.alloc();
    let slots = with_slots(heap, 8)?;
    let table: [(u8, &str, &[u8]); 4] = [
        (96, "start 1 7 12\n", slots.as_bytes()),
        (
            97,
            "may 0 12 end 0\nstart 1 7 12\n",
            b"refusal 14 layer 2 place 71\n",
        ),
        (
            96,
            "may 0 12 end 0\nstart 1 7 12\n",
            b"refusal 13 layer 2 place 1434\n",
        ),
        (95, "start 1 7 12\n", b"refusal 13 layer 2 place 1420\n"),
    ];
    for (counted, end, expected) in table {
        let mut text = with_rules(heap, counted, 8)?;
        text.push_str(end)?;
        told(&rt, text.as_bytes(), expected)?;
    }
    Ok(())
}

// The 96th rule may still be a double.
#[test]
fn last_rule_twice(rt: HostRuntime) -> Result<(), Fail> {
    let mut s = with_rules(rt.alloc(), 96, 7)?;
    for top in 0..11u8 {
        writeln!(s, "may 7 {top} end 7")?;
    }
    s.push_str("must 0 0 end 0\nstart 1 7 12\n")?;
    told(&rt, s.as_bytes(), b"refusal 17 layer 3 place 1419\n")
}
