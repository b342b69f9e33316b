//! Marks, asks for, sends, offers and acknowledges messages for eight contacts, for the speed and
//! memory of the table of these.

use crate::words::number_at;
use anyhow::Result;
use retry_table::Retry;
use std::alloc::AllocError;
use std::hash::RandomState;
use sync_rules::Mode;

/// The contacts.
const CONTACTS: u8 = 8;
/// The latency of their sessions in milliseconds.
const LATENCY: u32 = 1000;

/// Each message becomes ready for all contacts, and owed to them, one after another.
fn mark(retry: &mut Retry, count: u32) -> Result<(), AllocError> {
    for n in 0..count {
        for contact in 0..CONTACTS {
            retry.reserve(contact, n + 1, 0)?;
            retry.ready(contact, n);
            retry.owe(contact, n);
        }
    }
    Ok(())
}

/// Each contact asks for each message.
fn ask(retry: &mut Retry, count: u32) -> Result<(), AllocError> {
    for n in 0..count {
        for contact in 0..CONTACTS {
            retry.reserve(contact, count, 0)?;
            retry.ask(contact, n);
        }
    }
    Ok(())
}

/// Sends messages to a contact while one is due, and counts them.
fn send(
    retry: &mut Retry,
    contact: u8,
    count: u32,
    mode: Mode,
    now: u64,
) -> Result<u64, AllocError> {
    let mut sent = 0u64;
    for _ in 0..u64::MAX {
        let Some(n) = retry.due_message(contact, mode, now) else {
            return Ok(sent);
        };
        retry.reserve(contact, count, 0)?;
        if n < count {
            retry.sent(contact, n, now, LATENCY);
        }
        sent = sent.wrapping_add(1);
    }
    Ok(sent)
}

/// Offers messages to a contact while some are due, and counts them.
fn offer(retry: &mut Retry, contact: u8, count: u32, now: u64) -> Result<u64, AllocError> {
    let mut offered = 0u64;
    for _ in 0..u64::MAX {
        let due = retry.due_offers(contact, now)?;
        if due.is_empty() {
            return Ok(offered);
        }
        for n in due {
            retry.reserve(contact, count, 0)?;
            if n < count {
                retry.offered(contact, n, now, LATENCY);
            }
            offered = offered.wrapping_add(1);
        }
    }
    Ok(offered)
}

/// Acknowledges messages to a contact while some are owed, and counts them.
fn pay(retry: &mut Retry, contact: u8, count: u32) -> Result<u64, AllocError> {
    let mut paid = 0u64;
    for _ in 0..u64::MAX {
        let due = retry.owed(contact)?;
        if due.is_empty() {
            return Ok(paid);
        }
        for n in due {
            retry.reserve(contact, count, 0)?;
            if n < count {
                retry.paid(contact, n);
            }
            paid = paid.wrapping_add(1);
        }
    }
    Ok(paid)
}

/// Does all of it for so many messages, and prints how many were sent, offered and acknowledged.
pub(crate) fn measure(rt: &HostRuntime, words: &[String]) -> Result<()> {
    let count = number_at(words, 0)?;
    let mut retry = Retry::new(rt.alloc(), RandomState::new(rt)?)?;
    mark(&mut retry, count)?;
    ask(&mut retry, count)?;
    let mut sent = 0u64;
    let mut offered = 0u64;
    let mut paid = 0u64;
    for contact in 0..CONTACTS {
        let asked = send(&mut retry, contact, count, Mode::Interactive, 1000)?;
        let again = send(&mut retry, contact, count, Mode::Batch, 3000)?;
        sent = sent.wrapping_add(asked).wrapping_add(again);
        offered = offered.wrapping_add(offer(&mut retry, contact, count, 7000)?);
        paid = paid.wrapping_add(pay(&mut retry, contact, count)?);
    }
    println!(rt; "{sent} sent, {offered} offered, {paid} acknowledged")?;
    Ok(())
}
