use text::lines::Lines;
use text::number::{natural, number, word};
use text::text::{Words, uncommented};

#[test]
fn lines_of_a_text(rt: HostRuntime) {
    let mut lines = Lines::of(b"at 5\n\n# none\ncut");
    assert_eq!(rt; lines.next(), Some(b"at 5".as_slice()));
    assert_eq!(rt; lines.next(), Some(b"".as_slice()));
    assert_eq!(rt; lines.next(), Some(b"# none".as_slice()));
    assert_eq!(rt; lines.next(), Some(b"cut".as_slice()));
    assert_eq!(rt; lines.next(), None);
    assert_eq!(rt; Lines::of(b"at 5\n").count(), 1);
    assert_eq!(rt; Lines::of(b"").count(), 0);
}

#[test]
fn words_of_a_line(rt: HostRuntime) {
    let mut words = Words::of(uncommented(b" \tcut\t-5  #3\r# 4"));
    assert_eq!(rt; words.next(), Some(b"cut".as_slice()));
    assert_eq!(rt; words.next(), Some(b"-5".as_slice()));
    assert_eq!(rt; words.next(), None);
    assert_eq!(rt; words.next(), None);
    assert_eq!(rt; Words::of(b"a b\rc\n ").count(), 3);
}

#[test]
fn naturals(rt: HostRuntime) {
    for (text, value) in [
        (b"4294967295".as_slice(), Some(4294967295u32)),
        (b"007".as_slice(), Some(7)),
        (b"4294967296".as_slice(), None),
        (b"99999999999x".as_slice(), None),
        (b"1f".as_slice(), None),
        (b"-1".as_slice(), None),
    ] {
        assert_eq!(rt; natural(text), value);
    }
}

#[test]
fn numbers(rt: HostRuntime) {
    for (text, value) in [
        (b"2147483647".as_slice(), Some(2147483647i32)),
        (b"2147483648".as_slice(), None),
        (b"-2147483648".as_slice(), Some(-2147483648)),
        (b"-2147483649".as_slice(), None),
        (b"-0".as_slice(), Some(0)),
        (b"-".as_slice(), None),
        (b"--5".as_slice(), None),
        (b"+5".as_slice(), None),
        (b"".as_slice(), None),
    ] {
        assert_eq!(rt; number(text), value);
    }
}

#[test]
fn words(rt: HostRuntime) {
    for (text, value) in [
        (b"-32768".as_slice(), Some(-32768i16)),
        (b"32767".as_slice(), Some(32767)),
        (b"32768".as_slice(), None),
        (b"-32769".as_slice(), None),
        (b"0xffff".as_slice(), Some(-1)),
        (b"0x8000".as_slice(), Some(-32768)),
        (b"0x00000aF".as_slice(), Some(175)),
        (b"0x10000".as_slice(), None),
        (b"0x".as_slice(), None),
        (b"0xg".as_slice(), None),
        (b"0X1".as_slice(), None),
        (b"-0x1".as_slice(), None),
    ] {
        assert_eq!(rt; word(text), value);
    }
}
