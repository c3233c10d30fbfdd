// Lines that the session reads, and lines that it refuses.
#![tactic(auto)]

#[cfg(test)]
mod tests {
    use session::{Command, NoCommand};

    #[test]
    fn accepts(rt: HostRuntime) {
        assert_eq!(rt;
            Command::try_from(b"F 90 4".as_slice()),
            Ok(Command::Form {
                limit: 90,
                width: 4,
            })
        );
        assert_eq!(rt;
            Command::try_from(b"\tQ \x0b18446744073709551616  004\r\n".as_slice()),
            Ok(Command::Report {
                first: usize::MAX,
                count: 4,
            })
        );
    }

    #[test]
    fn refuses(rt: HostRuntime) {
        assert_eq!(rt; Command::try_from(b" ".as_slice()), Err(NoCommand));
        assert_eq!(rt; Command::try_from(b"f 90 4".as_slice()), Err(NoCommand));
        assert_eq!(rt; Command::try_from(b"F 90".as_slice()), Err(NoCommand));
        assert_eq!(rt; Command::try_from(b"F 90 4 1".as_slice()), Err(NoCommand));
        assert_eq!(rt; Command::try_from(b"F 90 +4".as_slice()), Err(NoCommand));
        assert_eq!(rt; Command::try_from(b"F 90 :".as_slice()), Err(NoCommand));
        assert_eq!(rt; Command::try_from(b"Q 0 \xff".as_slice()), Err(NoCommand));
        assert_eq!(rt;
            Command::try_from(b"Q 0 99999999999999999999".as_slice()),
            Err(NoCommand)
        );
    }
}
