//! The senders of a worker: one to each other worker.
ghost use Rattle.std.specs.Prelude.{◌≡◌, ◌≢◌, ℕ, ◌-◌, ◌<◌, Err, IfOk, MatchBool, OnOk, OnErr, map, replicate, length};
ghost use Rattle.wl_mail.specs.Senders.{one_letter_more, one_letter_more_to};
ghost use Rattle.wl_mail.specs.declared.fault.MailFault.TheVariants.{Foreign, Gone, Memory};

use crate::fault::MailFault;
use crate::letter::Letter;
use crossbeam_channel::Sender;
use std::alloc::{AllocError, Global};
use std::marker::Model;
use std::sync::Wait;

/// A sender to another worker, which counts its letters.
#[derive(Drop)]
struct CountedSender {
    to: Sender<Letter>,
    // How many letters it sent; at 2^64 - 1 it stays.
    letters: u64,
}

/// The senders to all other workers. Contracts see how many letters each sent.
#[derive(Drop)]
pub(crate) struct Senders {
    all: Vec<CountedSender>,
}

impl Model for Senders {
    ghost use Rattle.std.specs.Prelude.{List, ℕ, map};

    ghost Value = { List ℕ };

    ghost view = { λ senders. map (λ sender. sender.letters) senders.all.items };
}

/// Returns why a letter came back: there was no memory for its place, or its receiver was given up.
fn fault_of(is_out_of_memory: bool) -> MailFault
    ensures { MatchBool is_out_of_memory (result ≡ Memory) (result ≡ Gone) }
{
    if is_out_of_memory {
        MailFault::Memory
    } else {
        MailFault::Gone
    }
}

impl CountedSender {
    /// Sends a letter.
    fn send<R: Wait>(&mut self, rt: &R, letter: Letter) -> Result<(), MailFault>
        ensures ok { OnOk result (self.new.letters ≡ one_letter_more self.old.letters) }
        ensures err { OnErr result (self.new.letters ≡ self.old.letters) }
        ensures cause { result ≢ Err Foreign }
    {
        if let Err(unsent) = self.to.send(rt, letter) {
            return Err(fault_of(unsent.is_out_of_memory()));
        }
        self.letters = self.letters.saturating_add(1);
        Ok(())
    }
}

impl Senders {
    /// Sends a letter by each sender. Refused, it may have gone by the first ones.
    pub(crate) fn send<R: Wait>(&mut self, rt: &R, letter: &Letter) -> Result<(), MailFault>
        ensures all { OnOk result (self.new ≡ map one_letter_more self.old) }
        ensures some { (k : ℕ) × (self.new ≡ one_letter_more_to k self.old) }
        ensures cause { result ≢ Err Foreign }
    {
        for i in 0..self.all.len() {
            let same = letter.share()?;
            self.all[i].send(rt, same)?;
        }
        Ok(())
    }
}

/// Returns the senders of a worker, by where each worker's letters are sent to.
pub(crate) fn senders_of(
    alloc: Global,
    senders: &[Sender<Letter>],
    worker: usize,
) -> Result<Senders, AllocError>
    requires { worker < length senders.now }
    ensures { IfOk result (λ all. all ≡ replicate (length senders.now - 1) 0) }
{
    let mut others = Vec::new(alloc);
    for i in 0..senders.len() {
        if i != worker {
            others.push(CountedSender {
                to: senders[i].clone()?,
                letters: 0,
            })?;
        }
    }
    Ok(Senders { all: others })
}
