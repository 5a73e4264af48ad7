//! The bytes of command lines and of answer lines: fields of a line, numbers in fields, and the lines that answer.
#![tactic(auto)]

mod fields;
mod lines;
mod numbers;
mod stream;

pub use fields::{Field, Reader, count_fields};
pub use lines::{ANSWER_BYTES, NUMBER_BYTES, Reply, write_line, write_number};
pub use numbers::Form;
pub use stream::{LineStart, first_line};

#[cfg(test)]
mod tests {
    use super::*;
    use records::{Answer, Layer, Refusal, Status};
    use std::test::Fail;

    #[test]
    fn fields_in_order(rt: HostRuntime) -> Result<(), Fail> {
        let mut reader = Reader::new(b",a,,b");
        let first = reader.next().ok_or("no first field")?;
        assert!(rt; first.place == 2 && first.bytes == b"a".as_slice());
        let second = reader.next().ok_or("no second field")?;
        assert!(rt; second.place == 3 && second.bytes.is_empty());
        let third = reader.next().ok_or("no third field")?;
        assert!(rt; third.place == 4 && third.bytes == b"b".as_slice());
        assert!(rt; reader.next().is_none());
        Ok(())
    }

    #[test]
    fn fields_counted(rt: HostRuntime) {
        assert_eq!(rt; count_fields(b""), 0);
        assert_eq!(rt; count_fields(b","), 1);
        assert_eq!(rt; count_fields(b"ab,c"), 1);
        assert_eq!(rt; count_fields(b",a,,b"), 3);
    }

    #[test]
    fn numbers_in_the_form(rt: HostRuntime) {
        assert_eq!(rt; u64::read(b"0"), Some(0));
        assert_eq!(rt; u64::read(b"999999999999"), Some(999_999_999_999));
        assert_eq!(rt; u64::read(b"1000000000000"), None);
        assert_eq!(rt; u64::read(b""), None);
        assert_eq!(rt; u64::read(b"00"), None);
        assert_eq!(rt; u64::read(b"-5"), None);
    }

    #[test]
    fn prices_in_the_form(rt: HostRuntime) {
        assert_eq!(rt; i64::read(b"-5"), Some(-5));
        assert_eq!(rt; i64::read(b"-999999999999"), Some(-999_999_999_999));
        assert_eq!(rt; i64::read(b"400000"), Some(400_000));
        assert_eq!(rt; i64::read(b"-0"), None);
        assert_eq!(rt; i64::read(b"-"), None);
    }

    #[test]
    fn last_days_and_letters(rt: HostRuntime) {
        assert_eq!(rt; Option::<u64>::read(b"-"), Some(None));
        assert_eq!(rt; Option::<u64>::read(b"40000"), Some(Some(40_000)));
        assert_eq!(rt; Option::<u64>::read(b"-1"), None);
        assert_eq!(rt; u8::read(b"B"), Some(b'B'));
        assert_eq!(rt; u8::read(b""), None);
        assert_eq!(rt; u8::read(b"BS"), None);
    }

    #[test]
    fn answers_written(rt: HostRuntime) -> Result<(), Fail> {
        let answer = Answer {
            status: Status::New,
            exposure: -4_500_000_000,
            credit_position: 0,
            capacity: 350_000_000,
        };
        let mut buffer = [b'x'; 96];
        let length = write_line(&mut buffer, 4, &answer).ok_or("too short")?;
        assert_eq!(rt; length, 28);
        assert!(rt;
            &buffer[0..28] == b"4,0,-4500000000,0,350000000\n".as_slice() && buffer[28] == b'x'
        );
        let mut short = [b'x'; 95];
        assert_eq!(rt; write_line(&mut short, 4, &answer), None);
        assert!(rt; short[0] == b'x');
        Ok(())
    }

    #[test]
    fn refusals_written(rt: HostRuntime) -> Result<(), Fail> {
        let refusal = Refusal {
            number: 218,
            layer: Layer::Book,
            place: None,
        };
        let mut buffer = [b'x'; 96];
        let length = write_line(&mut buffer, 5, &refusal).ok_or("too short")?;
        assert_eq!(rt; length, 10);
        assert!(rt; &buffer[0..10] == b"5,218,B,0\n".as_slice() && buffer[10] == b'x');
        Ok(())
    }

    #[test]
    fn numbers_written(rt: HostRuntime) {
        let mut buffer = [b'x'; 20];
        assert_eq!(rt; write_number(&mut buffer, i64::MIN), Some(20));
        assert!(rt; buffer == *b"-9223372036854775808");
    }
}
