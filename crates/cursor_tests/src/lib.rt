// Lists that grow, run on the compiled code.
#![tactic(auto)]

#[cfg(test)]
mod tests {
    use cursor::append;
    use std::test::Fail;

    // Each item comes to the end, and the room is that of 1, 2, 4 and 8 items.
    #[test]
    fn appends(rt: HostRuntime) -> Result<(), Fail> {
        let mut list = Vec::new(rt.alloc());
        for (item, room) in [(7u32, 1usize), (8, 2), (9, 4), (10, 4), (11, 8)] {
            append(&mut list, item)?;
            assert_eq!(rt; list.capacity(), room);
        }
        assert_eq!(rt; list.as_slice(), [7u32, 8, 9, 10, 11].as_slice());
        Ok(())
    }
}
