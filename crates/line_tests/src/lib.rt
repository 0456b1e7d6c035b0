//! Tests of the waiting line, at numbers and at records.
#![tactic(auto)]

#[cfg(test)]
mod tests {
    use line::Line;
    use refusal::Fault;
    use std::test::Fail;

    #[derive(Clone, Copy, PartialEq, Eq, Debug)]
    struct Envy {
        taker: u16,
        brew: u8,
        rival: u16,
    }

    // A line of 4, 9 and 2.
    fn full_line(slots: &mut [u16]) -> Result<Line, Fail> {
        let mut line = Line::new();
        for x in [4, 9, 2] {
            line.put(slots, x)?;
        }
        Ok(line)
    }

    #[test]
    fn full_line_refuses(rt: HostRuntime) -> Result<(), Fail> {
        let mut slots = [0u16; 3];
        let mut line = full_line(&mut slots)?;
        assert_eq!(rt;
            line.put(&mut slots, 8)
                .map_err(|fault| (fault.number(), fault.place())),
            Err((21, 3))
        );
        assert_eq!(rt; slots, [4, 9, 2]);
        assert_eq!(rt; line.len(&slots), 3);
        assert_eq!(rt; line.take(&slots), Some(4));
        Ok(())
    }

    #[test]
    fn vacated_places_are_used_again(rt: HostRuntime) -> Result<(), Fail> {
        let mut slots = [0u16; 3];
        let mut line = full_line(&mut slots)?;
        assert_eq!(rt; line.take(&slots), Some(4));
        assert_eq!(rt; line.take(&slots), Some(9));
        line.put(&mut slots, 8)?;
        line.put(&mut slots, 5)?;
        assert_eq!(rt; line.len(&slots), 3);
        for oldest in [Some(2), Some(8), Some(5), None] {
            assert_eq!(rt; line.take(&slots), oldest);
        }
        Ok(())
    }

    #[test]
    fn records_in_order(rt: HostRuntime) -> Result<(), Fail> {
        let first = Envy {
            taker: 1,
            brew: 3,
            rival: 2,
        };
        let second = Envy {
            taker: 2,
            brew: 1,
            rival: 5,
        };
        let third = Envy {
            taker: 5,
            brew: 2,
            rival: 1,
        };
        let mut slots = [first; 2];
        let mut line = Line::new();
        line.put(&mut slots, first)?;
        line.put(&mut slots, second)?;
        assert_eq!(rt;
            line.put(&mut slots, third)
                .map_err(|fault| (fault.number(), fault.place())),
            Err((21, 2))
        );
        assert_eq!(rt; line.take(&slots), Some(first));
        line.put(&mut slots, third)?;
        assert_eq!(rt; line.take(&slots), Some(second));
        assert_eq!(rt; line.take(&slots), Some(third));
        assert_eq!(rt; line.take(&slots), None);
        Ok(())
    }

    #[test]
    fn no_places(rt: HostRuntime) -> Result<(), Fail> {
        let mut slots: [u16; 0] = [];
        let mut line = Line::new();
        assert_eq!(rt;
            line.put(&mut slots, 4)
                .map_err(|fault| (fault.number(), fault.place())),
            Err((21, 0))
        );
        assert_eq!(rt; line.len(&slots), 0);
        assert_eq!(rt; line.take(&slots), None);
        Ok(())
    }

    #[test]
    fn slice_of_another_length(rt: HostRuntime) -> Result<(), Fail> {
        let mut slots = [0u16; 3];
        let mut other = [0u16; 2];
        let mut line = Line::new();
        line.put(&mut slots, 4)?;
        assert_eq!(rt; line.len(&other), 0);
        assert_eq!(rt; line.take(&other), None);
        assert_eq!(rt; line.len(&slots), 1);
        line.put(&mut other, 9)?;
        assert_eq!(rt; line.len(&slots), 0);
        assert_eq!(rt; line.take(&slots), None);
        assert_eq!(rt; line.take(&other), Some(9));
        Ok(())
    }

    #[test]
    fn clear_forgets_all(rt: HostRuntime) -> Result<(), Fail> {
        let mut slots = [0u16; 2];
        let mut line = Line::new();
        line.put(&mut slots, 4)?;
        line.put(&mut slots, 9)?;
        line.clear();
        assert_eq!(rt; line.len(&slots), 0);
        assert_eq!(rt; line.take(&slots), None);
        line.put(&mut slots, 2)?;
        assert_eq!(rt; line.take(&slots), Some(2));
        Ok(())
    }
}
