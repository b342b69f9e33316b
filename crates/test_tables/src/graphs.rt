use crate::checks::{made, must, same};
use message_graph::{Ending, Fate, Graph, Judged, Names, Node, Step, fate_in, next_in};
use std::alloc::Global;
use std::hash::RandomState;
use std::process::Abort;

/// A pseudo-random number.
fn drawn(seed: u64) -> u64 {
    seed.wrapping_mul(6364136223846793005)
        .wrapping_add(1442695040888963407)
}

/// The names whose bits are set; name k is 32 bytes of k.
fn names(rt: &impl Abort, alloc: Global, bits: u64) -> Names {
    let mut names = Vec::new(alloc);
    for k in 0..12u8 {
        if (bits >> k) % 2 == 1 {
            made(rt, names.push([k; 32]));
        }
    }
    Names::new(names)
}

/// Refused, or accepted with names, by chance: the answer of node n depends on `seed` and n alone.
fn answer(rt: &impl Abort, alloc: Global, seed: u64, n: u32) -> Judged {
    let draw = drawn(seed ^ u64::from(n)) >> 20;
    if (draw >> 30) % 9 == 0 {
        Judged::Refused
    } else {
        Judged::Accepted(names(rt, alloc, draw & (draw >> 12) & 0xfff))
    }
}

/// Makes the step in the plain list too.
fn make(nodes: &mut [Node], step: Step) {
    let (n, ending) = match step {
        Step::Judge(_) => return,
        Step::Invalid(n) => (n as usize, Ending::Invalid),
        Step::Deliver(n) => (n as usize, Ending::Delivered),
    };
    if n < nodes.len() {
        let node = &mut nodes[n];
        node.ending = Some(ending);
    }
}

/// Makes the next step of a graph, if there is one, and of the list.
fn step(rt: &impl Abort, alloc: Global, graph: &mut Graph, nodes: &mut [Node], seed: u64) {
    match graph.next() {
        None => {}
        Some(Step::Judge(n)) => {
            made(rt, graph.judged(n, answer(rt, alloc, seed, n)));
            if (n as usize) < nodes.len() {
                let node = &mut nodes[n as usize];
                node.answer = Some(answer(rt, alloc, seed, n));
            }
        }
        Some(ends) => {
            graph.apply(ends);
            make(nodes, ends);
        }
    }
}

/// Compares the next step and each fate.
fn compare(rt: &impl Abort, graph: &Graph, nodes: &[Node], seed: u64) {
    must(rt, seed, graph.len() as usize == nodes.len());
    same(rt, seed, &graph.next(), &next_in(nodes));
    for (n, node) in nodes.iter().enumerate() {
        same(rt, seed, &graph.fate(n as u32), &fate_in(node));
    }
}

/// The number of the node that has the first name that this one depends on, by a scan.
fn first_in(nodes: &[Node], node: &Node) -> Option<u32> {
    let Some(Judged::Accepted(names)) = &node.answer else {
        return None;
    };
    let first = names.as_slice().first()?;
    for (n, other) in nodes.iter().enumerate() {
        if other.name == *first {
            return u32::try_from(n).ok();
        }
    }
    None
}

/// Compares what each node depends on first.
fn compare_firsts(rt: &impl Abort, alloc: Global, graph: &Graph, nodes: &[Node], seed: u64) {
    let firsts = made(rt, graph.firsts(alloc));
    must(rt, seed, firsts.len() == nodes.len());
    for (n, node) in nodes.iter().enumerate() {
        same(
            rt,
            seed,
            &firsts.get(n).copied(),
            &Some(first_in(nodes, node)),
        );
    }
}

/// Holds a message in both, if its name is new.
fn hold(rt: &impl Abort, graph: &mut Graph, nodes: &mut Vec<Node>, name: [u8; 32], group: u32) {
    if graph.number(&name).is_none() {
        must(rt, 100, graph.len() < 100);
        made(rt, graph.reserve(1));
        graph.hold(name, group);
        let node = Node {
            name,
            group,
            answer: None,
            ending: None,
        };
        made(rt, nodes.push(node));
    }
}

/// Makes steps by chance, and compares behind each.
fn play(rt: &impl Abort, alloc: Global, graph: &mut Graph, seed: u64) {
    let mut nodes = Vec::new(alloc);
    let mut draw = drawn(seed);
    for _ in 0..60 {
        draw = drawn(draw);
        if (draw >> 33) % 3 == 0 {
            let name = [((draw >> 40) % 12) as u8; 32];
            let group = u32::from((draw >> 50) % 7 == 0);
            hold(rt, graph, &mut nodes, name, group);
        } else {
            step(rt, alloc, graph, nodes.as_mut_slice(), seed);
        }
        compare(rt, graph, nodes.as_slice(), seed);
        compare_firsts(rt, alloc, graph, nodes.as_slice(), seed);
    }
}

/// An empty graph.
fn graph_of(rt: &impl Abort, alloc: Global, hasher: RandomState) -> Graph {
    made(rt, Graph::new(alloc, hasher))
}

/// The end of a graph, which is proved anew at each place where one goes.
fn let_go(_graph: Graph) {}

#[test]
fn agrees_with_a_scan(rt: HostRuntime) {
    for seed in 0..400u64 {
        let hasher = made(&rt, RandomState::new(&rt));
        let mut graph = graph_of(&rt, rt.alloc(), hasher);
        play(&rt, rt.alloc(), &mut graph, seed);
        let_go(graph);
    }
}

/// Holds message k, which is to be judged next, and depends on message `other`.
fn depend(rt: &impl Abort, alloc: Global, graph: &mut Graph, k: u8, other: u32) {
    let mut nodes = Vec::new(alloc);
    hold(rt, graph, &mut nodes, [k; 32], 0);
    let next = graph.next();
    same(rt, u64::from(k), &next, &Some(Step::Judge(u32::from(k))));
    if let Some(Step::Judge(n)) = next {
        made(
            rt,
            graph.judged(n, Judged::Accepted(names(rt, alloc, 1 << (other % 12)))),
        );
    }
}

#[test]
fn a_cycle_stays_pending(rt: HostRuntime) {
    let hasher = made(&rt, RandomState::new(&rt));
    let mut graph = graph_of(&rt, rt.alloc(), hasher);
    must(&rt, 0, graph.is_empty());
    depend(&rt, rt.alloc(), &mut graph, 0, 1);
    depend(&rt, rt.alloc(), &mut graph, 1, 0);
    same(&rt, 2, &graph.next(), &None);
    must(&rt, 3, graph.len() == 2);
    same(&rt, 4, &graph.fate(0), &Fate::Pending);
    same(&rt, 5, &graph.fate(1), &Fate::Pending);
    let_go(graph);
}
