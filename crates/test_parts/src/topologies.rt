//! Topologies: `topology PER PLACE..`, `same_cables PER PER PLACE..`, `delay FROM TO PER PLACE..` and `place_delay X TO PER PLACE..`, a place being `X,OUT,IN`, and
//! `X,OUT,IN*16` sixteen of them.

use crate::answer::{Answer, after, word};
use std::alloc::Global;
use wl_topology::{Place, Topology, TopologyFault};

/// True if the subject is one of this module's.
pub fn tell(alloc: Global, subject: &str, words: &[&str], answer: &mut Answer) -> bool {
    match subject {
        "topology" => tell_of(made(alloc, word(words, 0), after(words, 1), answer), answer),
        "same_cables" => same_cables(alloc, words, answer),
        "delay" => delay(alloc, words, answer),
        "place_delay" => place_delay(alloc, words, answer),
        _ => return false,
    }
    true
}

fn tell_of(made: Result<Topology, TopologyFault>, answer: &mut Answer) {
    match made {
        Ok(topology) => {
            answer.name("nodes", &topology.nodes());
            answer.name("least", &topology.least_delay());
        }
        Err(fault) => answer.show(&fault),
    }
}

fn same_cables(alloc: Global, words: &[&str], answer: &mut Answer) {
    let places = after(words, 2);
    let one = made(alloc, word(words, 0), places, answer);
    let is_same = one == made(alloc, word(words, 1), places, answer);
    answer.show(&is_same);
}

fn delay(alloc: Global, words: &[&str], answer: &mut Answer) {
    let from = answer.read(word(words, 0).parse::<u8>());
    let to = answer.read(word(words, 1).parse::<u8>());
    match made(alloc, word(words, 2), after(words, 3), answer) {
        Ok(topology) => if from < topology.nodes() && to < topology.nodes() {
            answer.show(&topology.delay(from, to));
        } else {
            answer.unread();
        },
        Err(_) => answer.unread(),
    }
}

fn place_delay(alloc: Global, words: &[&str], answer: &mut Answer) {
    let x = answer.read(word(words, 0).parse::<u32>());
    let to = answer.read(word(words, 1).parse::<u8>());
    match made(alloc, word(words, 2), after(words, 3), answer) {
        Ok(topology) => if to < topology.nodes() {
            answer.show(&topology.place_delay(x, to));
        } else {
            answer.unread();
        },
        Err(_) => answer.unread(),
    }
}

fn made(
    alloc: Global,
    per: &str,
    words: &[&str],
    answer: &mut Answer,
) -> Result<Topology, TopologyFault> {
    let mut places: Vec<Place> = Vec::new(alloc);
    for word in words {
        let (word, count) = answer.repeated(word);
        let place = place(word, answer);
        answer.add(&mut places, place, count);
    }
    Topology::new(places.as_slice(), answer.number(per))
}

fn place(word: &str, answer: &mut Answer) -> Place {
    let (x, delays) = answer.parts(word, ",");
    let (out_delay, in_delay) = answer.parts(delays, ",");
    Place {
        x: answer.read(x.parse::<u32>()),
        out_delay: answer.number(out_delay),
        in_delay: answer.number(in_delay),
        listens: false,
    }
}
