//! The table beside the list that it stands for, over many calls.

use nk_bits::{Leaf, Rights};
use std::alloc::Global;
use tlb_model::Tlb;

/// How many calls are made.
const CALLS: u32 = 10_000;

fn leaf(frame: u32) -> Leaf {
    Leaf {
        frame,
        rights: Rights {
            can_write: true,
            user: false,
            exec: false,
        },
    }
}

/// The next number of a linear congruential generator: Knuth's, for 64 bits.
fn next_number(number: u64) -> u64 {
    number
        .wrapping_mul(6_364_136_223_846_793_005)
        .wrapping_add(1_442_695_040_888_963_407)
}

fn listed(pairs: &[(u64, Leaf)], page: u64) -> Option<Leaf> {
    for (kept, leaf) in pairs {
        if *kept == page {
            return Some(*leaf);
        }
    }
    None
}

fn unlist(pairs: &mut Vec<(u64, Leaf)>, page: u64) {
    pairs.retain(|pair| pair.0 != page);
}

/// Puts a pair at the end of a list of at most so many, if there is memory.
fn list(pairs: &mut Vec<(u64, Leaf)>, most: usize, page: u64, leaf: Leaf) -> bool {
    unlist(pairs, page);
    if !pairs.is_empty() && pairs.len() >= most {
        pairs.remove(0);
    }
    pairs.push((page, leaf)).is_ok()
}

/// Makes one call of both, if there is memory, which a number tells: of 4,096 one is a flush, and
/// of the others six of ten are fills, two are drops and two change nothing.
fn call(tlb: &mut Tlb, pairs: &mut Vec<(u64, Leaf)>, most: usize, number: u64, page: u64) -> bool {
    if number >> 52 == 0 {
        tlb.flush();
        pairs.clear();
        return true;
    }
    match (number >> 20) % 10 {
        0..=5 => {
            let leaf = leaf((number >> 44) as u32);
            tlb.fill(page, leaf);
            list(pairs, most, page, leaf)
        }
        6 | 7 => {
            tlb.drop_page(page);
            unlist(pairs, page);
            true
        }
        _ => true,
    }
}

/// Whether a table and a list of at most so many pairs answer alike after each of the calls: for
/// the page of the call, and for one that the next number tells. Of 2,000 pages each bucket has
/// about two. Want of memory is None.
fn is_alike(alloc: Global, most: usize) -> Option<bool> {
    let Ok(mut tlb) = Tlb::new(alloc) else {
        return None;
    };
    let mut pairs = Vec::new(alloc);
    let mut number = 1;
    for _call in 0..CALLS {
        number = next_number(number);
        let page = (number >> 33) % 2000;
        if !call(&mut tlb, &mut pairs, most, number, page) {
            return None;
        }
        let other = (next_number(number) >> 33) % 2000;
        if tlb.look(page) != listed(&pairs, page) || tlb.look(other) != listed(&pairs, other) {
            return Some(false);
        }
    }
    Some(true)
}

/// A list that keeps one fewer, or one more, answers differently, once it is full.
#[test]
fn answers_as_the_list_of_1024(rt: HostRuntime) {
    assert_eq!(rt; is_alike(rt.alloc(), 1024), Some(true));
    assert_eq!(rt; is_alike(rt.alloc(), 1023), Some(false));
    assert_eq!(rt; is_alike(rt.alloc(), 1025), Some(false));
}
