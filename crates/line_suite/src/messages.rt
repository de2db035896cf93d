//! Headers of messages.
use message_frames::{Frame, HeaderRead, frame_in, header_in, push_message};
use std::test::Fail;

#[test]
fn headers_tell_lengths(rt: HostRuntime) {
    let rows = [
        ("Content-Length: 5\r\n\r\nhello", 21, 5),
        ("content-LENGTH:101\r\n\r\n", 22, 101),
        ("X-Other:\r\nContent-Length: \t 7 \t\r\n\r\n", 35, 7),
        ("Content-Length: 1\r\nContent-Length: 000002\n\n", 43, 2),
    ];
    for (text, len, body) in rows {
        assert!(rt; header_in(text.as_bytes()) == HeaderRead::Whole { len, body });
    }
}

#[test]
fn broken_and_unfinished_headers_are_told_apart(rt: HostRuntime) {
    for text in [
        "",
        "Content-Length: 5\r\n",
        "Content-Length: 5\r\n\r",
        "Content-Len",
    ] {
        assert!(rt; header_in(text.as_bytes()) == HeaderRead::Unfinished);
    }
    let broken = [
        "\r\n",
        "Content-Length 5\r\n\r\n",
        "Content-Length: -1\r\n\r\n",
        "Content-Length: \r\n\r\n",
        "Content-Length: 5 6\r\n\r\n",
        "Content-Length: 99999999999999999999\r\n\r\n",
        "Content-Type: x\r\n\r\n",
    ];
    for text in broken {
        assert!(rt; header_in(text.as_bytes()) == HeaderRead::Broken);
    }
}

#[test]
fn messages_are_found(rt: HostRuntime) {
    let rows = [
        (
            "Content-Length: 2\r\n\r\n{}x",
            Frame::Message { start: 21, end: 23 },
        ),
        (
            "Content-Length: 0\n\n",
            Frame::Message { start: 19, end: 19 },
        ),
        ("Content-Length: 2\r\n\r\n{", Frame::Unfinished),
        ("Content-Length: 67108864\r\n\r\n", Frame::Unfinished),
        ("Content-Length: 67108865\r\n\r\n", Frame::Broken),
        ("", Frame::Unfinished),
        ("x\r\n", Frame::Broken),
    ];
    for (text, frame) in rows {
        assert!(rt; frame_in(text.as_bytes()) == frame);
    }
}

#[test]
fn long_headers_are_broken(rt: HostRuntime) -> Result<(), Fail> {
    let mut header = String::from_str(rt.alloc(), "Content-Length: 0\n")?;
    while header.len() < 4_093 {
        header.push_str("a:\n")?;
    }
    assert!(rt; frame_in(header.as_str().as_bytes()) == Frame::Unfinished);
    header.push_str("\n")?;
    let len = header.len();
    assert!(rt;
        frame_in(header.as_str().as_bytes())
            == Frame::Message {
                start: len,
                end: len
            }
    );
    let mut long = String::from_str(rt.alloc(), "Content-Length: 0\nxyz:\n")?;
    while long.len() < 4_096 {
        long.push_str("a:\n")?;
    }
    long.push_str("\n")?;
    assert!(rt; frame_in(long.as_str().as_bytes()) == Frame::Broken);
    Ok(())
}

#[test]
fn written_messages_are_read_back(rt: HostRuntime) -> Result<(), Fail> {
    let alloc = rt.alloc();
    let mut out = Vec::new(alloc);
    push_message(alloc, b"{}", &mut out)?;
    assert!(rt; out.as_slice() == b"Content-Length: 2\r\n\r\n{}".as_slice());
    assert!(rt; header_in(out.as_slice()) == HeaderRead::Whole { len: 21, body: 2 });
    Ok(())
}
