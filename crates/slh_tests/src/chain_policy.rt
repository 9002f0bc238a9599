//! The example of docs/KEYS.md: names of links that say until when, under which number and for what.
use crate::keys_128f::{key, public};
use crate::shown::shows;
use slh_chain::Chain;
use slh_dsa::SetSizes;
use std::alloc::Global;
use std::str;

// Whether a name of the form `UNTIL/SERIAL/PURPOSE` allows this purpose on a day, and its number isn't
// among those that were revoked.
fn allows(name: &[u8], today: &str, revoked: &[&str], purpose: &str) -> Option<bool> {
    let (until, rest) = str::from_utf8(name).ok()?.split_once('/')?;
    let (serial, allowed) = rest.split_once('/')?;
    for number in revoked {
        if *number == serial {
            return Some(false);
        }
    }
    Some(until.len() == 10 && until >= today && allowed == purpose)
}

// Whether each link of a chain does.
fn is_allowed<P: SetSizes>(
    chain: &Chain<'_, P>,
    today: &str,
    revoked: &[&str],
    purpose: &str,
) -> bool {
    for link in chain.links() {
        if allows(link.name, today, revoked, purpose) != Some(true) {
            return false;
        }
    }
    true
}

// A day, the revoked numbers and a purpose, and whether a chain of one link allows them.
const DAYS: [(&str, &[&str], &str, bool); 5] = [
    ("2027-06-29", &[], "firmware", true),
    ("2027-06-30", &["16", "1"], "firmware", true),
    ("2027-07-01", &[], "firmware", false),
    ("2027-06-29", &["16", "17"], "firmware", false),
    ("2027-06-29", &[], "config", false),
];

// A chain of one link, which is made from the empty one.
fn are_judged(alloc: Global) -> Option<bool> {
    let (key, root) = (key(7), public(7));
    let name = b"2027-06-30/17/firmware";
    let empty = Chain::open(&root, &[]).ok()?;
    let bytes = empty.extend(alloc, &key, name, 0, &root, None).ok()?;
    let chain = Chain::open(&root, &bytes).ok()?;
    for (today, revoked, purpose, allowed) in &DAYS {
        if is_allowed(&chain, today, revoked, purpose) != *allowed {
            return Some(false);
        }
    }
    Some(true)
}

#[test]
fn names_say_until_when_and_for_what(rt: HostRuntime) {
    shows(&rt, are_judged(rt.alloc()) == Some(true));
}
