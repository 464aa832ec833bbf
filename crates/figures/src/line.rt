// The line of an element.
ghost use Rattle.std.specs.Prelude.{◌≡◌, ◌++◌, is_some, unwrap_or, IfOk, string_bytes, codes, decimal, OnOk};
ghost use Rattle.page.specs.Forest.{kids_of};
ghost use Rattle.page.specs.declared.kind.Part.TheVariants.{Content};
ghost use Rattle.text.specs.Held.{held};
ghost use Rattle.dom.specs.Under.{under_of};
ghost use Rattle.figures.specs.Points.{lowered_name, numbered, figures_text, element_line};

use dom::Under;
use names::{lower, tag_of};
use page::{Node, NodeKind, Page, Part};
use render::push_quoted;
use scorer::{content_score_by, get_class_weight, qualifies_by};
use std::alloc::{AllocError, Global};
use text::PartOf;

// The name of an element, lowered.
fn name_text<P: Page>(heap: Global, p: &P, n: usize) -> Result<String, AllocError>
    ensures { IfOk result (λ s. string_bytes s ≡ lowered_name (held (P.tree p.now) n Content)) }
{
    PartOf::new(p, n, Part::Content)
        .chars()
        .map(|c| lower(c))
        .collect(heap)
}

// The figures behind the name, with the content score of an element that qualifies.
fn figures_text(
    heap: Global,
    under: &Under,
    weight: i32,
    score: Option<usize>,
) -> Result<String, AllocError>
    ensures { IfOk result (λ s. string_bytes s ≡ figures_text under.now.text under.now.links weight (is_some score) (unwrap_or score 0)) }
{
    let text = under.text;
    let links = under.links;
    match score {
        Some(score) => format!(in heap; " {text} {links} {weight} yes {score}\n"),
        None => format!(in heap; " {text} {links} {weight} no -\n"),
    }
}

// The number before the name.
fn number_text(heap: Global, n: usize) -> Result<String, AllocError>
    ensures { IfOk result (λ s. string_bytes s ≡ decimal n ++ codes " ") }
{
    format!(in heap; "{n} ")
}

// The number and the quoted name.
fn push_name<P: Page>(heap: Global, p: &P, n: usize, out: &mut Vec<u8>) -> Result<(), AllocError>
    ensures { OnOk result (out.new.items ≡ out.old.items ++ numbered n (held (P.tree p.now) n Content)) }
{
    let number = number_text(heap, n)?;
    out.extend_from_slice(number.as_bytes())?;
    let name = name_text(heap, p, n)?;
    push_quoted(out, name.as_bytes())?;
    Ok(())
}

// The line of a node, if it is an element, by the figures of what is under it.
pub(crate) fn push_line<P: Page>(
    heap: Global,
    node: &Node<'_, P>,
    under: &Under,
    out: &mut Vec<u8>,
) -> Result<(), AllocError>
    requires { under.now ≡ under_of (kids_of node.now) }
    ensures { OnOk result (out.new.items ≡ out.old.items ++ element_line node.now) }
{
    let NodeKind::Element = node.kind() else {
        return Ok(());
    };
    let p = node.page();
    let n = node.number();
    push_name(heap, p, n, out)?;
    let weight = get_class_weight(p, n);
    let score = qualifies_by(tag_of(p, n), under).then(|| content_score_by(under));
    let text = figures_text(heap, under, weight, score)?;
    out.extend_from_slice(text.as_bytes())?;
    Ok(())
}
