//! Ranges, creations, revocations, and how many numbers there are.

use capability_table::*;
use jk_model::{CapId, DomainId};
use std::test::Fail;

const A: DomainId = DomainId(7);

const B: DomainId = DomainId(0);

/// Whether this is known of a number, and that it isn't revoked.
fn leads_to(table: &CapabilityTable, number: u32, owner: DomainId, target: u32) -> bool {
    let wanted = CapStatus {
        owner,
        target,
        revoked: false,
    };
    table.status(CapId(number)) == Some(wanted)
}

/// Whether this is known of a number, and that it is revoked.
fn led_to(table: &CapabilityTable, number: u32, owner: DomainId, target: u32) -> bool {
    let wanted = CapStatus {
        owner,
        target,
        revoked: true,
    };
    table.status(CapId(number)) == Some(wanted)
}

#[test]
fn ranges_follow_one_another(rt: HostRuntime) {
    let mut table = CapabilityTable::new(rt.alloc());
    assert!(rt; table.admit(A, 2) == Ok(()));
    assert!(rt; table.admit(B, 2) == Ok(()));
    assert!(rt; table.create(A, 40) == Some(CapId(1)));
    assert!(rt; table.create(B, 41) == Some(CapId(3)));
    assert!(rt; table.create(A, 42) == Some(CapId(2)));
    assert!(rt; table.create(B, 43) == Some(CapId(4)));
    assert!(rt; table.create(A, 44) == None);
    assert!(rt; table.create(B, 44) == None);
    assert!(rt; leads_to(&table, 2, A, 42));
    assert!(rt; leads_to(&table, 3, B, 41));
}

#[test]
fn revoked_stays_revoked(rt: HostRuntime) {
    let mut table = CapabilityTable::new(rt.alloc());
    assert!(rt; table.admit(A, 2) == Ok(()));
    assert!(rt; table.create(A, 40) == Some(CapId(1)));
    assert!(rt; table.create(A, 41) == Some(CapId(2)));
    table.revoke(CapId(1));
    assert!(rt; led_to(&table, 1, A, 40));
    assert!(rt; leads_to(&table, 2, A, 41));
    table.revoke(CapId(1));
    assert!(rt; led_to(&table, 1, A, 40));
}

#[test]
fn all_of_one_owner_revoked(rt: HostRuntime) {
    let mut table = CapabilityTable::new(rt.alloc());
    assert!(rt; table.admit(A, 3) == Ok(()));
    assert!(rt; table.admit(B, 1) == Ok(()));
    assert!(rt; table.create(A, 40) == Some(CapId(1)));
    assert!(rt; table.create(A, 41) == Some(CapId(2)));
    assert!(rt; table.create(B, 42) == Some(CapId(4)));
    table.revoke_all(A);
    assert!(rt; led_to(&table, 1, A, 40));
    assert!(rt; led_to(&table, 2, A, 41));
    assert!(rt; leads_to(&table, 4, B, 42));
    // No number is used again.
    assert!(rt; table.create(A, 43) == Some(CapId(3)));
    assert!(rt; leads_to(&table, 3, A, 43));
    assert!(rt; table.create(A, 44) == None);
}

#[test]
fn all_numbers(rt: HostRuntime) {
    let mut table = CapabilityTable::new(rt.alloc());
    assert!(rt; table.admit(A, 16_777_216) == Err(CapsError::Numbers));
    assert!(rt; table.admit(A, 4_294_967_295) == Err(CapsError::Numbers));
    assert!(rt; table.admit(A, 16_777_214) == Ok(()));
    assert!(rt; table.admit(B, 2) == Err(CapsError::Numbers));
    assert!(rt; table.admit(B, 1) == Ok(()));
    assert!(rt; table.create(B, 40) == Some(CapId(16_777_215)));
    assert!(rt; leads_to(&table, 16_777_215, B, 40));
    assert!(rt; table.admit(DomainId(8), 1) == Err(CapsError::Numbers));
    assert!(rt; table.admit(DomainId(8), 0) == Ok(()));
}
