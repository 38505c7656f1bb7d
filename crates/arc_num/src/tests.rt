use super::*;
use std::test::Fail;

#[test]
fn tokens_are_found_in_order(rt: HostRuntime) -> Result<(), Fail> {
    let mut tokens = Tokens::new(b" 001\t1e1\r\n\xff-1");
    let first = tokens.next().ok_or("no first token")?;
    assert_eq!(rt;
        first,
        Token {
            index: 1,
            start: 1,
            end: 4
        }
    );
    let second = tokens.next().ok_or("no second token")?;
    assert_eq!(rt;
        second,
        Token {
            index: 2,
            start: 5,
            end: 8
        }
    );
    let third = tokens.next().ok_or("no third token")?;
    assert_eq!(rt;
        third,
        Token {
            index: 3,
            start: 10,
            end: 13
        }
    );
    assert!(rt; tokens.next().is_none());
    assert!(rt; tokens.next().is_none());
    assert_eq!(rt; tokens.count(), 3);
    tokens_are_the_longest_runs();
    Ok(())
}

#[test]
fn white_space_alone_has_no_token(rt: HostRuntime) {
    assert!(rt; Tokens::new(b"").next().is_none());
    assert!(rt; Tokens::new(b" \t\r\n").next().is_none());
}

#[test]
fn numbers_fit_64_bits(rt: HostRuntime) {
    assert_eq!(rt; number(b"18446744073709551615"), Some(u64::MAX));
    assert_eq!(rt; number(b"18446744073709551616"), None);
    assert_eq!(rt; number(b"99999999999999999999999999999999999999999"), None);
    assert_eq!(rt; number(b"000000000000000000000000000000001"), Some(1));
    assert_eq!(rt; number(b""), None);
    assert_eq!(rt; number(b"+1"), None);
    assert!(rt; is_digits(b"010"));
    assert!(rt; !is_digits(b""));
    assert!(rt; !is_digits(b"1e1"));
}

#[test]
fn numbers_are_appended(rt: HostRuntime) -> Result<(), Fail> {
    let mut out = Vec::from_slice(rt.alloc(), b"n = ")?;
    push_number(&mut out, 0)?;
    push_number(&mut out, u128::MAX)?;
    push_signed(&mut out, -2)?;
    assert_eq!(rt;
        out.as_slice(),
        b"n = 0340282366920938463463374607431768211455-2".as_slice()
    );
    let text = format!(in rt.alloc(); "{Memory}")?;
    assert_eq!(rt; text.as_str(), "out of memory");
    Ok(())
}

#[test]
fn limits_are_those_of_the_product(rt: HostRuntime) {
    assert_eq!(rt; (MAX_DIMS, MAX_TYPES, MAX_ITEMS), (32, 64, 1_000));
    assert_eq!(rt;
        (MAX_FORMS, MAX_ALL_FORMS, MAX_DEMAND),
        (64, 8_000, 1_000_000)
    );
    assert_eq!(rt; u64::from(MAX_VALUE), (1u64 << 31) - 1);
    assert_eq!(rt; MAX_PRICE, 1u64 << 62);
    assert_eq!(rt;
        (MAX_ARCS, MAX_SPLITS, MAX_WORKERS),
        (1_000_000, 20_000, 64)
    );
    assert_eq!(rt; MAX_INSTANCE, 1usize << 26);
    assert_eq!(rt; MAX_CERT, 1u64 << 40);
}

#[test]
fn lists_are_put_together(rt: HostRuntime) -> Result<(), Fail> {
    let alloc = rt.alloc();
    let mut list = Listed::empty(alloc);
    list.push(3u32)?;
    let more = Listed::new(vec![in alloc; 3u32, 4u32]?);
    assert!(rt; list != more);
    list.push(4u32)?;
    assert!(rt; list == more);
    assert_eq!(rt; list.as_slice().len(), 2);
    let mut again = Vec::new(list.allocator());
    again.extend_from_slice(list.into_list().as_slice())?;
    assert!(rt; again.as_slice() == more.as_slice());
    let mut text = Vec::new(alloc);
    push_bytes(&mut text, b"row ")?;
    push_bytes(&mut text, b"1")?;
    assert!(rt; text.as_slice() == b"row 1".as_slice());
    decimals_read_back();
    Ok(())
}
