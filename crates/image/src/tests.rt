// Images by their bytes.
use super::*;
use cells::{CellStore, Ratings, Span, Stored, read_cell};
use grammar::{Quantity, Text};
use std::test::Fail;

// So many bytes of zero, which are no image.
fn blank(rt: &HostRuntime, n: usize) -> Result<ImageStore, Fail> {
    Ok(ImageStore::new(vec![in rt.alloc(); 0u8; n]?))
}

// Every cell at its longest: numbers of 8 bytes, masks of 4, texts of 24.
fn fill(store: &mut ImageStore) {
    let longest = Text::new(b"abcdefghijklmnopqrstuvwx").unwrap();
    for cell in 0..128u32 {
        store.set(cell, Stored::Number(-1));
        store.set(cell, Stored::Mask(1));
        store.set(cell, Stored::Text(longest));
    }
}

#[test]
fn room(rt: HostRuntime) -> Result<(), Fail> {
    for (n, able) in [(508, true), (507, false)] {
        let mut store = blank(&rt, n)?;
        fill(&mut store);
        assert_eq!(rt; store.is_able(), able);
        assert_eq!(rt; store.save().is_ok(), able);
    }
    assert!(rt; !blank(&rt, 155)?.is_able());
    assert!(rt; blank(&rt, 156)?.is_able());
    Ok(())
}

#[test]
fn saved_and_damaged(rt: HostRuntime) -> Result<(), Fail> {
    let mut store = blank(&rt, 200)?;
    store.set(100, Stored::Number(-2));
    store.save()?;
    store.set(100, Stored::Number(7));
    store.reload();
    assert_eq!(rt; store.get(100).and_then(Stored::number), Some(-2));
    let mut bytes = store.into_bytes();
    assert!(rt; bytes.len() == 200);
    // The pair of cell 100 says offset 156 and length 8, and its contents are eight bytes, high byte first.
    assert_eq!(rt; bytes[44], 0);
    assert_eq!(rt; bytes[45], 156);
    assert_eq!(rt; bytes[47], 8);
    assert_eq!(rt; bytes[156], 255);
    assert_eq!(rt; bytes[163], 254);
    // A wrong offset in the last pair, that of cell 127, means that every cell is absent.
    bytes[153] = 0;
    let damaged = ImageStore::new(bytes);
    assert_eq!(rt; damaged.get(100).and_then(Stored::number), None);
    Ok(())
}

#[test]
fn unlawful_values(rt: HostRuntime) -> Result<(), Fail> {
    let ten = Span {
        low: Quantity::clamped(-10_000_000),
        high: Quantity::clamped(10_000_000),
    };
    let ratings = Ratings {
        current: ten,
        voltage: ten,
    };
    let mut store = blank(&rt, 300)?;
    store.set(11, Stored::Number(10_000_001));
    store.set(90, Stored::Mask(4));
    store.save()?;
    let again = ImageStore::new(store.into_bytes());
    assert_eq!(rt; again.get(11).and_then(Stored::number), Some(10_000_001));
    assert_eq!(rt;
        read_cell(&again, 11, &ratings).and_then(|value| Stored::from(value).number()),
        Some(10_000_000)
    );
    assert_eq!(rt;
        read_cell(&again, 90, &ratings).and_then(|value| Stored::from(value).mask()),
        Some(0)
    );
    Ok(())
}
