//! What references may choose, gathered one reference after another.

ghost use Rattle.std.specs.Prelude.{◌≡◌, ◌↔◌, ◌<◌, ℕ, List, Some, [], length, map, IfOk, IfSome, OnOk, IsTrue, true, ◌++◌};
ghost use Rattle.std.specs.Rc.{rc_value};
ghost use Rattle.std.specs.List.{list_all};
ghost use Rattle.std.specs.List.Sorted.{IsStrictlyIncreasing};
ghost use Rattle.lisa_tree.specs.Descriptions.{DescriptionTree};
ghost use Rattle.graph_paths.specs.Paths.{targets, is_in, saw, Reaches, AreNodes};
ghost use Rattle.lisa_tree.specs.declared.declared.What.TheVariants as whats;
ghost use Rattle.lisa_tree.specs.Declarations.{entries, what_at};
ghost use Rattle.description_graph.specs.Graph.{IsOutline, first_entry};
ghost use Rattle.text_counts.specs.References.{MayMean, chosen_by};
ghost use Rattle.text_counts.specs.Gathering.{IsGathered, is_node_ready, gathered_at, gathered, AreSources, late_row};

use graph_paths::{reached_from, row};
use lisa_tree::{Names, What};
use std::alloc::{AllocError, Global};
use std::rc::Rc;

/// A list that may stand for several references.
pub(crate) type Numbers = Rc<Vec<usize>>;

/// An outline of a description's graph, and where its declared names begin among the nodes.
#[derive(Drop)]
pub(crate) struct Graph<'a, N: Names> {
    pub names: &'a N,
    pub next: &'a [Vec<usize>],
    pub base: usize,
    ghost first: { base ≡ first_entry (N.tree names.now) },
}

// The edges from a node, if it stands behind so many others.
fn late_row(
    alloc: Global,
    base: usize,
    next: &[Vec<usize>],
    node: usize,
) -> Result<Vec<usize>, AllocError>
    requires { node < length next.now }
    ensures { IfOk result (λ nodes. nodes.items ≡ late_row base next.now node) }
{
    if node < base {
        Ok(Vec::new(alloc))
    } else {
        let nodes = Vec::from_slice(alloc, row(next, node))?;
        Ok(nodes)
    }
}

// The edges from all nodes behind so many others.
fn late_edges(
    alloc: Global,
    base: usize,
    next: &[Vec<usize>],
) -> Result<Vec<Vec<usize>>, AllocError>
    ensures length { IfOk result (λ edges. length edges.items ≡ length next.now) }
    ensures rows { IfOk result (λ edges. (a : ℕ) → targets edges.items a ≡ late_row base next.now a) }
{
    let mut edges = Vec::new(alloc);
    for node in 0..next.len() {
        edges.push(late_row(alloc, base, next, node)?)?;
    }
    Ok(edges)
}

// The nodes that were seen.
fn nodes_seen(alloc: Global, seen: &[bool]) -> Result<Vec<usize>, AllocError>
    ensures { IfOk result (λ nodes. (b : ℕ) → is_in b nodes.items ≡ saw seen.now b) }
{
    let mut nodes = Vec::new(alloc);
    for node in 0..seen.len() {
        if seen[node] {
            nodes.push(node)?;
        }
    }
    Ok(nodes)
}

// All declared names to which a reference leads, over any number of references. Only in a description with a circle a reference is searched
// so.
fn reached<N: Names>(
    alloc: Global,
    graph: &Graph<'_, N>,
    reference: usize,
) -> Result<Vec<usize>, AllocError>
    requires outline { IsOutline (N.tree graph.now.names.now) graph.now.next.now }
    requires reference { what_at (N.tree graph.now.names.now) reference ≡ Some whats.Reference }
    ensures { IfOk result (λ nodes. AreSources (N.tree graph.now.names.now) [] reference nodes.items) }
{
    let edges = late_edges(alloc, graph.base, graph.next)?;
    let seen = reached_from(alloc, &edges, graph.base + reference)?;
    let nodes = nodes_seen(alloc, &seen)?;
    Ok(nodes)
}

// Whether a reference is done.
#[tactic(auto, using(graph_paths::proofs::Seen::saw_at, graph_paths::proofs::Seen::saw_past))]
fn is_done(done: &[bool], number: usize) -> bool
    ensures { result ≡ saw done.now number }
{
    if number < done.len() {
        done[number]
    } else {
        false
    }
}

// Whether what a node may choose is known.
fn is_ready<N: Names>(graph: &Graph<'_, N>, done: &[bool], node: usize) -> bool
    ensures { result ≡ is_node_ready (N.tree graph.now.names.now) done.now node }
{
    match node.checked_sub(graph.base) {
        None => true,
        Some(number) => match graph.names.what_at(number) {
            Some(What::Reference) => is_done(done, number),
            _ => true,
        },
    }
}

fn are_ready<N: Names>(graph: &Graph<'_, N>, done: &[bool], nodes: &[usize]) -> bool
    ensures { result ≡ list_all (is_node_ready (N.tree graph.now.names.now) done.now) nodes.now }
{
    for &node in nodes {
        if !is_ready(graph, done, node) {
            return false;
        }
    }
    true
}

// The nodes from which what a reference may choose is gathered: those to which it leads, where all of them are known.
fn sources<N: Names>(
    alloc: Global,
    graph: &Graph<'_, N>,
    done: &[bool],
    reference: usize,
) -> Result<Vec<usize>, AllocError>
    requires outline { IsOutline (N.tree graph.now.names.now) graph.now.next.now }
    requires reference { what_at (N.tree graph.now.names.now) reference ≡ Some whats.Reference }
    ensures { IfOk result (λ nodes. AreSources (N.tree graph.now.names.now) done.now reference nodes.items) }
{
    let next = row(graph.next, graph.base + reference);
    if are_ready(graph, done, next) {
        let nodes = Vec::from_slice(alloc, next)?;
        return Ok(nodes);
    }
    let searched = reached(alloc, graph, reference)?;
    Ok(searched)
}

/// A list by its number, the empty one where there is none.
#[tactic(auto, using(crate::proofs::Rows::shown_at, crate::proofs::Rows::shown_past))]
pub(crate) fn list_at(lists: &[Numbers], number: usize) -> &[usize]
    ensures { result.now ≡ targets (map rc_value lists.now) number }
{
    if number < lists.len() {
        lists[number].as_slice()
    } else {
        &[]
    }
}

// What a declared name chooses among, as far as it is known.
fn chosen_by<'a, N: Names>(names: &'a N, lists: &'a [Numbers], number: usize) -> &'a [usize]
    ensures { result.now ≡ chosen_by (N.tree names.now) (targets (map rc_value lists.now)) number (what_at (N.tree names.now) number) }
{
    match names.what_at(number) {
        Some(What::Group(choice)) | Some(What::Instance(choice)) => names.plain_at(choice),
        Some(What::Reference) => list_at(lists, number),
        _ => &[],
    }
}

// What a node chooses among, as far as it is known, if it is a declared name. These stand behind so many other nodes.
fn chosen_at<'a, N: Names>(
    names: &'a N,
    base: usize,
    lists: &'a [Numbers],
    node: usize,
) -> &'a [usize]
    requires { base ≡ first_entry (N.tree names.now) }
    ensures { result.now ≡ gathered_at (N.tree names.now) (targets (map rc_value lists.now)) node }
{
    match node.checked_sub(base) {
        Some(number) => chosen_by(names, lists, number),
        None => &[],
    }
}

// What the declared names among some nodes choose together, as far as it is known.
fn gathered<N: Names>(
    alloc: Global,
    graph: &Graph<'_, N>,
    lists: &[Numbers],
    nodes: &[usize],
) -> Result<Vec<usize>, AllocError>
    ensures { IfOk result (λ all. all.items ≡ gathered (N.tree graph.now.names.now) (targets (map rc_value lists.now)) nodes.now) }
{
    let mut all = Vec::new(alloc);
    for &node in nodes {
        all.extend_from_slice(chosen_at(graph.names, graph.base, lists, node))?;
    }
    Ok(all)
}

// The numbers of a list, each once and in their order.
fn in_order(numbers: Vec<usize>) -> Vec<usize>
    ensures rising { IsStrictlyIncreasing result.items }
    ensures same { (a : ℕ) → is_in a result.items ≡ is_in a numbers.items }
{
    let mut all = numbers;
    all.sort_unstable();
    all.dedup();
    all
}

/// The reference from which alone something is gathered, where it is gathered from one.
#[tactic(auto, using(crate::proofs::Rows::one_reference))]
pub(crate) fn only_reference<N: Names>(graph: &Graph<'_, N>, nodes: &[usize]) -> Option<usize>
    ensures reference { IfSome result (λ number. what_at (N.tree graph.now.names.now) number ≡ Some whats.Reference) }
    ensures gathered { IfSome result (λ number. (means : ℕ → List ℕ) → gathered (N.tree graph.now.names.now) means nodes.now ≡ means number) }
{
    if nodes.len() != 1 {
        return None;
    }
    let number = nodes[0].checked_sub(graph.base)?;
    match graph.names.what_at(number) {
        Some(What::Reference) => Some(number),
        _ => None,
    }
}

// The list of one reference, with no memory of its own.
#[tactic(auto, using(crate::proofs::Rows::shown_at))]
fn same_list(lists: &[Numbers], number: usize) -> Result<Numbers, AllocError>
    requires { number < length lists.now }
    ensures { IfOk result (λ list. (rc_value list).items ≡ targets (map rc_value lists.now) number) }
{
    lists[number].clone()
}

/// Whether two lists are the same.
pub(crate) fn is_same(one: &[usize], other: &[usize]) -> bool
    ensures { IsTrue result → one.now ≡ other.now }
{
    one == other
}

/// How many sums lists have, by which equal ones are found.
pub(crate) const SUMS: usize = 4096;

// A sum of a list.
fn sum_of_list(list: &[usize]) -> usize {
    let mut sum = list.len();
    for &number in list {
        sum = sum.wrapping_mul(31).wrapping_add(number);
    }
    sum % SUMS
}

// A reference's list: that of the latest reference with this sum where the two are the same, else one of its own.
fn shared_list(
    alloc: Global,
    lists: &[Numbers],
    latest: &mut Vec<usize>,
    number: usize,
    list: Vec<usize>,
) -> Result<Numbers, AllocError>
    ensures { IfOk result (λ shared. (rc_value shared).items ≡ list.items) }
{
    if let Some(reference) = latest.get_mut(sum_of_list(&list)) {
        let other = *reference;
        if other < lists.len() && is_same(list_at(lists, other), &list) {
            return same_list(lists, other);
        }
        *reference = number;
    }
    let shared = Rc::new(alloc, list)?;
    Ok(shared)
}

// What some nodes may choose together, each once and in order. What is gathered from one reference alone is that reference's own list.
fn list_of<N: Names>(
    alloc: Global,
    graph: &Graph<'_, N>,
    lists: &[Numbers],
    latest: &mut Vec<usize>,
    number: usize,
    nodes: &[usize],
) -> Result<Numbers, AllocError>
    requires { (i : ℕ) → IsStrictlyIncreasing (targets (map rc_value lists.now) i) }
    ensures rising { IfOk result (λ list. IsStrictlyIncreasing (rc_value list).items) }
    ensures same { IfOk result (λ list. (a : ℕ) → is_in a (rc_value list).items ≡ is_in a (gathered (N.tree graph.now.names.now) (targets (map rc_value lists.now)) nodes.now)) }
{
    if let Some(other) = only_reference(graph, nodes) {
        if other < lists.len() {
            return same_list(lists, other);
        }
    }
    let list = in_order(gathered(alloc, graph, lists, nodes)?);
    let shared = shared_list(alloc, lists, latest, number, list)?;
    Ok(shared)
}

/// Gathers what a reference may choose, if that wasn't done. Of lists of each sum the latest is noted by its reference.
pub(crate) fn visit<N: Names>(
    alloc: Global,
    graph: &Graph<'_, N>,
    lists: &mut Vec<Numbers>,
    done: &mut Vec<bool>,
    latest: &mut Vec<usize>,
    number: usize,
) -> Result<(), AllocError>
    requires outline { IsOutline (N.tree graph.now.names.now) graph.now.next.now }
    requires gathered { IsGathered (N.tree graph.now.names.now) (map rc_value lists.old.items) done.old.items }
    ensures gathered { OnOk result (IsGathered (N.tree graph.now.names.now) (map rc_value lists.new.items) done.new.items) }
    ensures kept { OnOk result ((i : ℕ) → saw done.old.items i ≡ true → saw done.new.items i ≡ true) }
    ensures done { OnOk result (what_at (N.tree graph.now.names.now) number ≡ Some whats.Reference → saw done.new.items number ≡ true) }
{
    if graph.names.what_at(number) != Some(What::Reference) || is_done(done, number) {
        return Ok(());
    }
    let nodes = sources(alloc, graph, done, number)?;
    let list = list_of(alloc, graph, lists, latest, number, &nodes)?;
    lists[number] = list;
    done[number] = true;
    Ok(())
}
