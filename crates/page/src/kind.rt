// The kinds of nodes and their parts.

// What a node is.
#[derive(Clone, Copy, PartialEq, Eq, Debug)]
pub enum NodeKind {
    Document,
    Doctype,
    Text,
    Comment,
    Element,
}

// A part of a node that holds bytes: its content (a text, a comment, a doctype or a tag name), or the name or the value
// of one of its attributes.
#[derive(Clone, Copy, PartialEq, Eq, Debug)]
pub enum Part {
    Content,
    Name(usize),
    Value(usize),
}
