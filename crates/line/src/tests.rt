use crate::event::Event;
use crate::write::write_line;
use rules::refusal::Refusal;

// Each test shows its whole buffer.

#[test]
fn writes_a_finish(rt: HostRuntime) {
    let mut buffer = [b'x'; 27];
    assert_eq!(rt;
        write_line(&mut buffer, 25, Event::Finish, 2, b"risen"),
        Ok(16)
    );
    assert_eq!(rt; &buffer, b"0025 F 02 risen\nxxxxxxxxxxx");
}

#[test]
fn writes_a_dash(rt: HostRuntime) {
    let mut buffer = [b'x'; 28];
    assert_eq!(rt;
        write_line(&mut buffer, 12_345, Event::Order, 107, b""),
        Ok(12)
    );
    assert_eq!(rt; &buffer, b"2345 O 07 -\nxxxxxxxxxxxxxxxx");
}

#[test]
fn cuts_a_long_name(rt: HostRuntime) {
    let mut buffer = [b'x'; 28];
    assert_eq!(rt;
        write_line(&mut buffer, 0, Event::Order, 0, b"abcdefghijklmnopq"),
        Ok(27)
    );
    assert_eq!(rt; &buffer, b"0000 O 00 abcdefghijklmnop\nx");
}

#[test]
fn refuses_a_short_buffer(rt: HostRuntime) {
    let mut buffer = [b'x'; 26];
    assert_eq!(rt;
        write_line(&mut buffer, 0, Event::Order, 0, b""),
        Err(Refusal::ShortBuffer)
    );
    assert_eq!(rt; buffer, [b'x'; 26]);
}
