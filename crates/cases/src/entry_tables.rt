// Entry tables: placing, striking and counting.
ghost use Rattle.std.specs.Prelude.{◌==◌};

#[cfg(test)]
mod tests {
    use slots::Matches;

    #[derive(Clone, Copy, PartialEq, Eq, Debug)]
    struct Entry {
        key: u8,
        note: u8,
    }

    impl Matches<u8> for Entry {
        ghost fits = { λ k e. (e.key == k) };

        fn matches(&self, key: &u8) -> bool {
            self.key == *key
        }
    }

    fn noted(key: u8, note: u8) -> Entry {
        Entry { key, note }
    }

    #[test]
    fn a_full_table_refuses_and_stays(rt: HostRuntime) {
        let mut table = [None; 2];
        assert!(rt; slots::place(&mut table, noted(1, 10)).is_ok());
        assert!(rt; slots::place(&mut table, noted(1, 11)).is_ok());
        assert!(rt; slots::place(&mut table, noted(2, 12)).is_err());
        assert_eq!(rt; table, [Some(noted(1, 10)), Some(noted(1, 11))]);
    }

    #[test]
    fn a_strike_closes_the_gap(rt: HostRuntime) {
        let mut table = [
            Some(noted(1, 10)),
            Some(noted(2, 11)),
            Some(noted(2, 12)),
            None,
        ];
        assert_eq!(rt; slots::strike(&mut table, &2), Some(noted(2, 11)));
        assert_eq!(rt; table, [Some(noted(1, 10)), Some(noted(2, 12)), None, None]);
        assert_eq!(rt; slots::strike(&mut table, &3), None);
        assert_eq!(rt; table, [Some(noted(1, 10)), Some(noted(2, 12)), None, None]);
    }

    #[test]
    fn an_empty_place_matches_nothing(rt: HostRuntime) {
        let table = [None, Some(noted(0, 1)), None, Some(noted(0, 2))];
        assert_eq!(rt; slots::count(&table, &0), 2);
        assert_eq!(rt; slots::count(&table, &1), 0);
    }
}
