//! Values of parts that a program makes, and what it gets back.
use irtext_parts::{Decimal, Defaulted, Digits, Hex};
use irtext_syntax::{Characters, Number};
use std::alloc::Global;
use std::process::Abort;
use std::test::Fail;

/// Floats, how they are spelled, and whether that is read back to the same float; `none` for one that is not finite.
const FLOATS: &[(f64, &str)] = &[
    (1.5, "1.5 true"),
    (-0.0, "-0.0 true"),
    (1e300, "1e300 true"),
    (f64::INFINITY, "none"),
];

/// Integers as they are spelled, and their numbers in 64 bits, with a sign and without one.
const INTEGERS: &[(&str, Option<i64>, Option<u64>)] = &[
    ("-12", Some(-12), None),
    ("18446744073709551615", None, Some(18446744073709551615)),
    ("99999999999999999999", None, None),
];

/// The integer of a text, as it is spelled.
fn digits(alloc: Global, text: &str) -> Result<Option<Digits>, Fail> {
    let text = String::from_str(alloc, text)?;
    Ok(Digits::new(Characters::new(text)))
}

/// Ends the test if a text is not the expected one.
fn same(rt: &impl Abort, said: &str, wanted: &str) {
    assert_eq!(rt; said, wanted);
}

/// What is spelled for a float, and whether it is read back to the same float.
fn spelled(alloc: Global, x: f64) -> Result<String, Fail> {
    match Decimal::from_f64(alloc, x)? {
        Some(number) => {
            let back = number.to_f64() == x;
            Ok(format!(in alloc; "{} {back}", number.as_str())?)
        }
        None => Ok(String::from_str(alloc, "none")?),
    }
}

/// The same, where memory suffices.
fn spelled_of(rt: &impl Abort, alloc: Global, x: f64) -> String {
    match spelled(alloc, x) {
        Ok(text) => text,
        Err(_) => rt.panic("out of memory"),
    }
}

/// The integer of a text, where memory suffices and it is one.
fn digits_of(rt: &impl Abort, alloc: Global, text: &str) -> Digits {
    match digits(alloc, text) {
        Ok(Some(number)) => number,
        _ => rt.panic("no integer, or out of memory"),
    }
}

#[test]
fn floats_are_read_back(rt: HostRuntime) {
    for row in FLOATS {
        same(&rt, spelled_of(&rt, rt.alloc(), row.0).as_str(), row.1);
    }
}

#[test]
fn integers_of_any_size(rt: HostRuntime) {
    for row in INTEGERS {
        let number = digits_of(&rt, rt.alloc(), row.0);
        assert_eq!(&rt; number.to_i64().ok(), row.1);
        assert_eq!(&rt; number.to_u64().ok(), row.2);
    }
}

#[test]
fn numbers_that_are_made(rt: HostRuntime) {
    assert_eq!(&rt; Hex::new(255_u32).get(), 255);
    let aligned: Defaulted<Number<u32>, ()> = Defaulted::new(Number::new(4));
    assert_eq!(&rt; aligned.value.get(), 4);
}
