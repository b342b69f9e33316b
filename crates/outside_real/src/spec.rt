//! What a link's spec asks for.

/// A link as its spec names it. The text behind the colon has at least one byte.
pub enum Spec<'a> {
    /// The standard input and output.
    Std,
    /// The peer that listens at this host, colon and port.
    Tcp(&'a str),
    /// The first peer that comes to this host, colon and port of this machine.
    Listen(&'a str),
    /// The peer that listens at this path.
    Unix(&'a str),
    /// The first peer that comes to this path.
    UnixListen(&'a str),
}

/// Reads a spec; none where it is of no kind, or its place is empty.
pub fn read_spec(text: &str) -> Option<Spec<'_>> {
    if text == "std" {
        return Some(Spec::Std);
    }
    let (kind, place) = text.split_once(':')?;
    if place.is_empty() {
        return None;
    }
    match kind {
        "tcp" => Some(Spec::Tcp(place)),
        "listen" => Some(Spec::Listen(place)),
        "unix" => Some(Spec::Unix(place)),
        "unixlisten" => Some(Spec::UnixListen(place)),
        _ => None,
    }
}
