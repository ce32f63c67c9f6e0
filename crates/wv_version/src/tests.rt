use crate::{Predicate, Version};
use std::alloc::Global;
use std::cmp::Ordering;
use std::test::Fail;
use wv_base::Text;

fn version(alloc: Global, text: &str) -> Result<Version, Fail> {
    Ok(Version::read(alloc, &Text::from_str(alloc, text)?)?)
}

fn predicate(alloc: Global, text: &str) -> Result<Option<Predicate>, Fail> {
    Ok(Predicate::read(alloc, &Text::from_str(alloc, text)?)?)
}

#[test]
fn compares(rt: HostRuntime) -> Result<(), Fail> {
    let alloc = rt.alloc();
    let less = [
        ("1.20", "1.20.1"),
        ("1.20.1", "1.20.4"),
        ("1.9", "1.20"),
        ("1.20.4", "1.21"),
        ("1.21-pre1", "1.21"),
        ("1.21-alpha.24.20.a", "1.21-pre1"),
        ("1.19.4-rc.2", "1.19.4"),
        ("1.19.4-rc.2", "1.19.4-rc.10"),
        ("1.19.4-pre.4", "1.19.4-rc.1"),
        ("1.19.4-rc", "1.19.4-rc.1"),
        ("2.0.0-", "2.0.0"),
        ("2.0.0-", "2.0.0-0"),
        ("2.0.0-", "2.0.0-alpha"),
        ("1.9.9", "2.0.0-"),
        ("2-", "2.0.0.1-"),
        ("0.14.21", "0.14.22"),
        ("0.14.21+build.9", "0.14.22+build.1"),
        ("0.90.0+1.20.1", "0.90.1+1.20"),
        ("1.0-1", "1.0-a"),
        ("1.0-999999999999999999", "1.0-1000000000000000000"),
        ("1.0-2", "1.0--"),
        ("1.0-A", "1.0-a"),
        ("1.0-rc9", "1.0-rca"),
        ("1.0-rc10", "1.0-rc9"),
        ("999999999999999998", "999999999999999999"),
    ];
    for (low, high) in less {
        let low_version = version(alloc, low)?;
        let high_version = version(alloc, high)?;
        assert_eq!(rt;
            low_version.compare(&high_version),
            Some(Ordering::Less),
            "{low} {high}"
        );
        assert_eq!(rt;
            high_version.compare(&low_version),
            Some(Ordering::Greater),
            "{high} {low}"
        );
    }
    let equal = [
        ("1.0", "1.0.0"),
        ("1", "1.0.0.0"),
        ("1.20.1", "01.020.001"),
        ("0.14.21+build.1", "0.14.21"),
        ("0.14.21+build.1", "0.14.21+build.2"),
        ("1.0-rc.2+x", "1.0.0-rc.02"),
        ("2.0.0-", "2-"),
    ];
    for (left, right) in equal {
        let order = version(alloc, left)?.compare(&version(alloc, right)?);
        assert_eq!(rt; order, Some(Ordering::Equal), "{left} {right}");
    }
    let none = [
        ("23w31a", "1.20.1"),
        ("1.20.1", "23w31a"),
        ("23w31a", "23w31a"),
        ("1.20.", "1.20"),
        ("1..2", "1.2"),
        ("1.2+", "1.2"),
        ("1.0000000000000000000", "1.0"),
        ("1.0-a..b", "1.0"),
        ("1.0-a_b", "1.0"),
        ("${version}", "1.0"),
        ("", "0"),
    ];
    for (left, right) in none {
        let order = version(alloc, left)?.compare(&version(alloc, right)?);
        assert_eq!(rt; order, None, "{left} {right}");
    }
    Ok(())
}

#[test]
fn predicates(rt: HostRuntime) -> Result<(), Fail> {
    let alloc = rt.alloc();
    let cases = [
        ("^1.2", "1.9", true),
        ("^1.2", "2.0.0", false),
        ("^1.2", "2.0.0-", false),
        ("^1.2", "1.1", false),
        ("^1.2", "1.2-rc.1", false),
        ("^1", "23w31a", false),
        ("~1.20.1", "1.20.4", true),
        ("~1.20.1", "1.21", false),
        ("~1.20.1", "1.21-pre1", false),
        ("~1.20.1", "1.20", false),
        ("~1.20", "1.20.1", true),
        ("~1", "1.0.4", true),
        ("1.x", "1.0-", true),
        ("1.x", "2-", false),
        ("1.20.x", "1.20", true),
        ("1.20.X", "1.20.6", true),
        ("1.20.*", "1.20-pre1", true),
        ("1.20.x", "1.21-pre1", false),
        ("1.0.x", "1", true),
        ("1.20.x", "23w31a", false),
        ("<2", "2.0.0-", true),
        ("<2", "2.0.0", false),
        ("<=2", "2.0.0", true),
        ("<=2", "2.0.0.1", false),
        (">1.19.4-rc.2", "1.19.4", true),
        (">1.19.4", "1.19.4", false),
        (">=1.19.4", "1.19.4", true),
        (">=1.21-", "1.21-pre1", true),
        (">=1.21", "1.21-pre1", false),
        (">=1.20 <1.21-", "1.20.6", true),
        (">=1.20 <1.21-", "1.21-pre1", false),
        ("  >=1.20   <1.21  ", "1.20.6", true),
        ("", "23w31a", true),
        ("  ", "1.0", true),
        ("*", "23w31a", true),
        ("23w31a", "23w31a", true),
        ("=23w31a", "23w31a", true),
        ("23w31a", "23w31b", false),
        ("1.20.1", "1.20.1+build.3", true),
        ("=1.20", "1.20.0", true),
        ("1.0", "23w31a", false),
        ("=1.x", "1.x", true),
        ("=1.x", "1.0", false),
        ("==1", "=1", true),
        ("==1", "1", false),
        ("=", "", true),
        ("x", "x", true),
        ("1.x.2", "1.x.2", true),
        ("=a b", "a", false),
        ("=a a", "a", true),
    ];
    for (text, of, wanted) in cases {
        let of_version = version(alloc, of)?;
        let met = predicate(alloc, text)?.map(|predicate| predicate.test(&of_version));
        assert_eq!(rt; met, Some(wanted), "{text} {of}");
    }
    for text in [
        "<", "<23w31a", "<=x", ">1.x", ">=", "^", "^1.x", "~", "~*", "< 2", ">=1 <a", "<==1", "^=1",
    ] {
        assert!(rt; predicate(alloc, text)?.is_none(), "{text}");
    }
    Ok(())
}
