//! Examples of the book and of the line call, each run as a test.
#![tactic(auto)]

#[cfg(test)]
mod tests {
    use book::{Book, OpenFault};
    use desk::{Desk, MarketName};
    use market::{Market, Weeks};
    use records::{Fault, Refusal, Terms};
    use std::test::Fail;

    // A book of MI-XBID with a margin of 3 percent, opened on day 5.
    fn opened(rt: &HostRuntime) -> Result<Book<Market, Weeks>, Fail> {
        let terms = Terms {
            margin: 3,
            first_day: 5,
            reference: 0,
        };
        Book::open(rt.alloc(), MarketName::Xbid.into(), Weeks, terms).map_err(|fault| match fault {
            OpenFault::Refused(_) => Fail::new("refused"),
            OpenFault::OutOfMemory => Fail::new("no memory"),
        })
    }

    fn number(fault: Fault) -> u16 {
        Refusal::from(fault).number
    }

    #[test]
    fn guarantees_count_at_their_worth(rt: HostRuntime) -> Result<(), Fail> {
        let mut book = opened(&rt)?;
        assert!(rt; book.admit(7, 0, 500).is_ok());
        assert!(rt; book.post(7, 1, None, 100_000).is_ok());
        let answer = book.query(7).ok().ok_or("refused")?;
        assert_eq!(rt; answer.capacity, 4_850_000_000);
        Ok(())
    }

    #[test]
    fn numbers_stay_used(rt: HostRuntime) -> Result<(), Fail> {
        let mut book = opened(&rt)?;
        assert!(rt; book.admit(7, 0, 500).is_ok());
        assert!(rt; book.post(7, 4, Some(5), 1).is_ok());
        assert!(rt; book.return_guarantee(7, 4).is_ok());
        let fault = book.post(7, 4, None, 1).err().ok_or("taken")?;
        assert_eq!(rt; number(fault), 214);
        Ok(())
    }

    #[test]
    fn short_buffer_is_left_alone(rt: HostRuntime) -> Result<(), Fail> {
        let mut desk = Desk::new();
        let mut buffer = [7u8; 95];
        let mut scratch = [9u32; 4];
        let refused = desk
            .line(rt.alloc(), 1, b"O,X,3,0,0", &mut buffer, &mut scratch)
            .err()
            .ok_or("answered")?;
        assert_eq!(rt; refused.length, 0);
        let refusal = refused.fault.refusal().ok_or("no number")?;
        assert_eq!(rt; refusal.number, 100);
        assert!(rt; buffer == [7u8; 95]);
        assert!(rt; scratch == [9u32; 4]);
        Ok(())
    }

    #[test]
    fn bytes_after_the_line_stay(rt: HostRuntime) -> Result<(), Fail> {
        let mut desk = Desk::new();
        let mut buffer = [7u8; 96];
        let mut scratch = [9u32; 4];
        let length = desk
            .line(rt.alloc(), 12, b"O,X,3,0,0", &mut buffer, &mut scratch)
            .ok()
            .ok_or("refused")?;
        assert_eq!(rt; length, 11);
        assert!(rt; &buffer[..11] == b"12,0,0,0,0\n".as_slice());
        assert!(rt; buffer[11] == 7 && buffer[95] == 7);
        Ok(())
    }
}
