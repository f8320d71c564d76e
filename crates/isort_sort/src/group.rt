//! The statements of a block with what each takes from the members.
ghost use Rattle.std.specs.Prelude.{◌≡◌, ◌++◌, IfOk, OnOk, [], ◌∷◌, map, option_to_list, string_bytes};
ghost use Rattle.std.specs.Option.{option_map};
ghost use Rattle.isort_settings.specs.Values.{values};
ghost use Rattle.std.specs.BTreeMap.{keys};
ghost use Rattle.isort_sort.specs.Private.Gathered.{brought, brought_by, brought_value, seen_value, AreDistinct, AreMade, Gathers};
ghost use Rattle.isort_sort.specs.Private.GroupOrder.{group_cmp};
ghost use Rattle.isort_sort.specs.Private.Group.{group_value, AreGrouped};
ghost use Rattle.isort_sort.specs.Member.{first_texts};
ghost use Rattle.isort_sort.specs.Order.{AreInOrder};
ghost use Rattle.isort_sort.specs.Statement.{item_cmp};
ghost use Rattle.isort_sort.specs.Private.Values.{item_value, member_value};

use crate::member::Member;
use crate::statement::{FromItem, Statement, item_cmp};
use isort_settings::laws::{modules_are_totally_ordered, names_are_totally_ordered};
use isort_settings::{Section, Settings};
use std::alloc::{AllocError, Global};
use std::cmp::Ordering;
use std::collections::{BTreeMap, BTreeSet};
use std::mem;

/// A statement of a block, with what the members bring to it.
#[derive(Drop)]
pub(crate) struct Group {
    /// The section of its module.
    pub(crate) section: Section,
    /// The place of that section in the order of sections.
    pub(crate) rank: usize,
    /// The statement.
    pub(crate) statement: Statement,
    /// The items of `Names`, in order; none for the other statements.
    pub(crate) items: Vec<FromItem>,
    /// The own comments that it joins, each once, in source order.
    pub(crate) comments: Vec<String>,
    /// The comments that stand above it, in source order.
    pub(crate) above: Vec<String>,
}

/// What was seen of a statement, in source order.
#[derive(Drop)]
struct Gathered {
    /// The items of `Names`; none for the other statements.
    items: Vec<FromItem>,
    /// The own comments of the members that begin with it.
    comments: Vec<String>,
    /// The comments above those members.
    above: Vec<String>,
}

impl Gathered {
    ghost use Rattle.isort_sort.specs.Private.Gathered.{nothing_seen, IsMade};

    /// Nothing.
    fn new(alloc: Global) -> Gathered
        ensures { seen_value result ≡ nothing_seen }
    {
        Gathered {
            items: Vec::new(alloc),
            comments: Vec::new(alloc),
            above: Vec::new(alloc),
        }
    }

    /// Adds what an import brings.
    fn add(
        &mut self,
        item: Option<FromItem>,
        mut comments: Vec<String>,
        mut above: Vec<String>,
    ) -> Result<(), AllocError>
        ensures items { OnOk result (map item_value self.new.items.items
            ≡ map item_value self.old.items.items ++ option_to_list (option_map item_value item)) }
        ensures comments { OnOk result (map string_bytes self.new.comments.items
            ≡ map string_bytes self.old.comments.items ++ map string_bytes comments.items) }
        ensures above { OnOk result (map string_bytes self.new.above.items
            ≡ map string_bytes self.old.above.items ++ map string_bytes above.items) }
    {
        if let Some(item) = item {
            self.items.push(item)?;
        }
        self.comments.append(&mut comments)?;
        self.above.append(&mut above)
    }

    /// The group of the statement, of which this was seen.
    fn into_group(
        self,
        alloc: Global,
        settings: &Settings,
        statement: Statement,
    ) -> Result<Group, AllocError>
        ensures { IfOk result (λ group. IsMade (values settings.now) statement self group) }
    {
        let Gathered {
            mut items,
            comments,
            above,
        } = self;
        order_items(settings, &mut items)?;
        let section = settings.section_of(statement.module());
        Ok(Group {
            section,
            rank: settings.section_rank(section),
            statement,
            items,
            comments: each_once(alloc, comments)?,
            above,
        })
    }
}

/// The texts, each once, where it stands first.
fn each_once(alloc: Global, texts: Vec<String>) -> Result<Vec<String>, AllocError>
    ensures { IfOk result (λ kept. map string_bytes kept.items
        ≡ first_texts (map string_bytes texts.items)) }
{
    // Most statements have no comment, or one.
    if texts.len() < 2 {
        return Ok(texts);
    }
    let mut seen: BTreeSet<String> = BTreeSet::new(alloc);
    let mut kept = Vec::new(alloc);
    for text in texts {
        if !seen.contains(text.as_str()) {
            seen.insert(text.clone()?)?;
            kept.push(text)?;
        }
    }
    Ok(kept)
}

/// Puts items in order, each once.
fn order_items(settings: &Settings, items: &mut Vec<FromItem>) -> Result<(), AllocError>
    ensures { OnOk result (AreInOrder (item_cmp (values settings.now))
        (map item_value items.old.items) (map item_value items.new.items)) }
{
    names_are_totally_ordered();
    items.sort_by(|a, b| item_cmp(settings, a, b))?;
    items.dedup();
    Ok(())
}

/// The order of two groups.
fn group_cmp(settings: &Settings, a: &Group, b: &Group) -> Ordering
    ensures { result ≡ group_cmp (values settings.now) (group_value a.now) (group_value b.now) }
{
    a.rank
        .cmp(&b.rank)
        .then_with(|| a.statement.cmp_in_section(settings, &b.statement))
}

/// What was seen of each statement, by the order of statements: chosen names could make a hash with a fixed seed slow.
type Statements = BTreeMap<Statement, Gathered>;

/// An import, with what it brings to its statement.
#[derive(Drop)]
struct Import {
    /// The statement that it belongs to.
    statement: Statement,
    /// Its item, if the statement is one of names.
    item: Option<FromItem>,
    /// The own comments of its line, if it is the line's first import.
    comments: Vec<String>,
    /// The comments above its line, if it is the line's first import.
    above: Vec<String>,
}

/// Adds what an import brings to its statement.
fn gather(alloc: Global, statements: &mut Statements, import: Import) -> Result<(), AllocError>
    ensures { OnOk result (Gathers statements.old.entries (brought_value import ∷ [])
        statements.new.entries) }
{
    let Import {
        statement,
        item,
        comments,
        above,
    } = import;
    let gathered = statements.entry(statement)?.or_insert(Gathered::new(alloc));
    gathered.add(item, comments, above)?;
    Ok(())
}

/// Adds what a member brings to its statements: its comments go with its first import.
fn gather_member(
    alloc: Global,
    settings: &Settings,
    statements: &mut Statements,
    member: Member,
) -> Result<(), AllocError>
    ensures { OnOk result (Gathers statements.old.entries
        (brought_by (values settings.now) (member_value member)) statements.new.entries) }
{
    let Member {
        bindings,
        mut comments,
        mut above,
    } = member;
    for binding in bindings {
        let (statement, item) = Statement::of_binding(settings, binding);
        let import = Import {
            statement,
            item,
            comments: mem::replace(&mut comments, Vec::new(alloc)),
            above: mem::replace(&mut above, Vec::new(alloc)),
        };
        gather(alloc, statements, import)?;
    }
    Ok(())
}

/// What the members bring to their statements.
fn gather_members(
    alloc: Global,
    settings: &Settings,
    members: Vec<Member>,
) -> Result<Statements, AllocError>
    ensures { IfOk result (λ statements. Gathers []
        (brought (values settings.now) (map member_value members.items)) statements.entries) }
{
    let mut statements = BTreeMap::new(alloc);
    for member in members {
        gather_member(alloc, settings, &mut statements, member)?;
    }
    Ok(statements)
}

/// The groups of the statements.
fn groups_of(
    alloc: Global,
    settings: &Settings,
    statements: Statements,
) -> Result<Vec<Group>, AllocError>
    ensures made { IfOk result (λ groups.
        AreMade (values settings.now) statements.entries groups.items) }
    ensures distinct { OnOk result (AreDistinct (keys statements)) }
{
    let mut groups = Vec::with_capacity(alloc, statements.len())?;
    for (statement, gathered) in statements {
        groups.push(gathered.into_group(alloc, settings, statement)?)?;
    }
    Ok(groups)
}

/// The statements of the members, in order, each with what it takes from them.
pub(crate) fn group_members(
    alloc: Global,
    settings: &Settings,
    members: Vec<Member>,
) -> Result<Vec<Group>, AllocError>
    ensures { IfOk result (λ groups. AreGrouped (values settings.now)
        (map member_value members.items) (map group_value groups.items)) }
{
    modules_are_totally_ordered();
    names_are_totally_ordered();
    let statements = gather_members(alloc, settings, members)?;
    let mut groups = groups_of(alloc, settings, statements)?;
    groups.sort_by(|a, b| group_cmp(settings, a, b))?;
    Ok(groups)
}
