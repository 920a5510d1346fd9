//! The tree of a section in the language of Graphviz.

use crate::text::Text;
use crate::tree::{Node, Tree};
use std::alloc::{AllocError, Global};

/// Adds the words of a node between quotes.
fn put_words(text: &mut Text, words: &[u8]) -> Result<(), AllocError> {
    for byte in words {
        if matches!(*byte, b'"' | b'\\') {
            text.say("\\")?;
        }
        text.spell(&[*byte])?;
    }
    Ok(())
}

/// Adds the name of the node of this number.
fn put_name(text: &mut Text, number: usize) -> Result<(), AllocError> {
    text.say("n")?;
    text.count(number)
}

/// Adds a node, with its line.
fn put_node(text: &mut Text, number: usize, node: Node, words: &[u8]) -> Result<(), AllocError> {
    text.say("  ")?;
    put_name(text, number)?;
    text.say(" [label=\"")?;
    put_words(text, words)?;
    if let Some(at) = node.at {
        text.say("\\nline ")?;
        text.natural(at.line().number())?;
    }
    text.say("\"];")?;
    text.end()
}

/// Adds the edge from a node to one below it.
fn put_edge(text: &mut Text, above: usize, number: usize) -> Result<(), AllocError> {
    text.say("  ")?;
    put_name(text, above)?;
    text.say(" -> ")?;
    put_name(text, number)?;
    text.say(";")?;
    text.end()
}

/// A tree as a graph of Graphviz. Node 0 is the section of this number; the others have the numbers of their lines.
pub fn dot_text(alloc: Global, section: u32, tree: &Tree) -> Result<Text, AllocError> {
    let mut text = Text::new(alloc);
    text.say("digraph section")?;
    text.natural(section)?;
    text.say(" {")?;
    text.end()?;
    text.say("  node [shape=box];")?;
    text.end()?;
    text.say("  n0 [label=\"section ")?;
    text.natural(section)?;
    text.say("\"];")?;
    text.end()?;
    let mut above = Vec::new(alloc);
    above.push(0usize)?;
    for (index, node) in tree.nodes.iter().enumerate() {
        let number = index.saturating_add(1);
        above.truncate(node.level.saturating_add(1));
        put_node(&mut text, number, *node, tree.text.part(node.from, node.to))?;
        put_edge(&mut text, above.last().copied().unwrap_or(0), number)?;
        above.push(number)?;
    }
    text.say("}")?;
    text.end()?;
    Ok(text)
}
