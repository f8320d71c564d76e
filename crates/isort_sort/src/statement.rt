//! The statements of a block, and their items.
ghost use Rattle.std.specs.Prelude.{◌≡◌, string_bytes, option_copied, option_to_list};
ghost use Rattle.std.specs.Option.{option_cmp, option_map};
ghost use Rattle.py_imports.specs.BindingValue.{binding_value};
ghost use Rattle.isort_settings.specs.Orders.{name_cmp};
ghost use Rattle.isort_settings.specs.Values.{values};
ghost use Rattle.isort_sort.specs.Private.Gathered.{listed_item};
ghost use Rattle.isort_sort.specs.Private.GroupOrder.{cmp_in_module, cmp_in_section};
ghost use Rattle.isort_sort.specs.Line.{imported_of};
ghost use Rattle.isort_sort.specs.Statement.{form_place, group_place, is_from, item_cmp, module_of, own_item};
ghost use Rattle.isort_sort.specs.Statement.{statement_of};
ghost use Rattle.isort_sort.specs.Private.Values.{item_value, statement_value};

use isort_settings::Settings;
use py_imports::Binding;
use std::cmp::Ordering;

/// An item of `from MODULE import ..`: a name, and its alias.
#[derive(Drop, PartialEq, Eq, PartialOrd, Ord)]
pub(crate) struct FromItem {
    /// The name that is imported.
    pub(crate) name: String,
    /// The name that it is bound to, if that is another one.
    pub(crate) alias: Option<String>,
}

/// A statement that sorting writes: what tells it from the other statements of its block.
#[derive(Drop, PartialEq, Eq, PartialOrd, Ord)]
pub(crate) enum Statement {
    /// `import MODULE`, perhaps with an alias.
    Straight {
        module: String,
        alias: Option<String>,
    },
    /// `from MODULE import *`.
    Star {
        module: String,
    },
    /// `from MODULE import ..`, with all names that share a statement.
    Names {
        module: String,
    },
    /// `from MODULE import ..`, with one item that stands alone.
    Single {
        module: String,
        item: FromItem,
    },
}

impl Statement {
    /// The statement that an import belongs to; and its item, if the statement is one of names.
    pub(crate) fn of_binding(settings: &Settings, binding: Binding) -> (Statement, Option<FromItem>)
        ensures statement { statement_value result.0
            ≡ statement_of (values settings.now) (imported_of (binding_value binding)) }
        ensures item { option_to_list (option_map item_value result.1)
            ≡ listed_item (values settings.now) (imported_of (binding_value binding)) }
    {
        let Binding {
            module_name: module,
            attribute_name,
            alias_name: alias,
            line: _,
            indented: _,
        } = binding;
        let Some(name) = attribute_name else {
            return (Statement::Straight { module, alias }, None);
        };
        if name.as_str() == "*" && alias.is_none() {
            return (Statement::Star { module }, None);
        }
        let alone = settings.force_single_line || alias.is_some() && !settings.combine_as_imports;
        let item = FromItem { name, alias };
        if alone {
            (Statement::Single { module, item }, None)
        } else {
            (Statement::Names { module }, Some(item))
        }
    }

    /// The module.
    pub(crate) fn module(&self) -> &str
        ensures { result.now ≡ module_of (statement_value self.now) }
    {
        match self {
            Statement::Straight { module, .. } => module.as_str(),
            Statement::Star { module } => module.as_str(),
            Statement::Names { module } => module.as_str(),
            Statement::Single { module, .. } => module.as_str(),
        }
    }

    /// Whether it begins with `from`.
    pub(crate) fn is_from(&self) -> bool
        ensures { result ≡ is_from (statement_value self.now) }
    {
        !matches!(self, Statement::Straight { .. })
    }

    /// Its place among the statements of its section: straight statements stand before the others, unless the settings
    /// say otherwise.
    fn group_place(&self, settings: &Settings) -> u8
        ensures { result ≡ group_place (values settings.now) (statement_value self.now) }
    {
        if settings.force_sort_within_sections || !self.is_from() {
            0
        } else {
            1
        }
    }

    /// The place of its form among the statements of its module.
    fn form_place(&self) -> u8
        ensures { result ≡ form_place (statement_value self.now) }
    {
        match self {
            Statement::Straight { .. } => 0,
            Statement::Star { .. } => 1,
            Statement::Names { .. } => 2,
            Statement::Single { .. } => 3,
        }
    }

    /// The name that tells it from the statements of its form and module: that of a single item, else an empty one.
    fn own_name(&self) -> &str
        ensures { result.now ≡ (own_item (statement_value self.now)).path }
    {
        match self {
            Statement::Single { item, .. } => item.name.as_str(),
            _ => "",
        }
    }

    /// The alias that tells it from the statements of its form, module and name.
    fn own_alias(&self) -> Option<&str>
        ensures { option_copied result ≡ (own_item (statement_value self.now)).alias }
    {
        match self {
            Statement::Straight { alias, .. } => text_of(alias),
            Statement::Single { item, .. } => text_of(&item.alias),
            _ => None,
        }
    }

    /// The order among the statements of one section and module: by form, and then by name and alias.
    fn cmp_in_module(&self, settings: &Settings, other: &Statement) -> Ordering
        ensures { result ≡ cmp_in_module (values settings.now) (statement_value self.now)
            (statement_value other.now) }
    {
        self.form_place()
            .cmp(&other.form_place())
            .then_with(|| settings.order_names(self.own_name(), other.own_name()))
            .then_with(|| alias_cmp(settings, self.own_alias(), other.own_alias()))
    }

    /// The order among the statements of one section: straight statements come first, unless the settings say otherwise;
    /// then the modules decide.
    pub(crate) fn cmp_in_section(&self, settings: &Settings, other: &Statement) -> Ordering
        ensures { result ≡ cmp_in_section (values settings.now) (statement_value self.now)
            (statement_value other.now) }
    {
        self.group_place(settings)
            .cmp(&other.group_place(settings))
            .then_with(|| settings.order_modules(self.module(), other.module()))
            .then_with(|| self.cmp_in_module(settings, other))
    }
}

/// The text, if there is one.
fn text_of(text: &Option<String>) -> Option<&str>
    ensures { option_copied result ≡ option_map string_bytes text.now }
{
    match text {
        Some(text) => Some(text.as_str()),
        None => None,
    }
}

/// The order of two aliases: none comes first.
fn alias_cmp(settings: &Settings, a: Option<&str>, b: Option<&str>) -> Ordering
    ensures { result ≡ option_cmp (name_cmp (values settings.now)) (option_copied a.entry)
        (option_copied b.entry) }
{
    match (a, b) {
        (None, None) => Ordering::Equal,
        (None, Some(_)) => Ordering::Less,
        (Some(_), None) => Ordering::Greater,
        (Some(a), Some(b)) => settings.order_names(a, b),
    }
}

/// The order of two items: by name, and then by alias.
pub(crate) fn item_cmp(settings: &Settings, a: &FromItem, b: &FromItem) -> Ordering
    ensures { result ≡ item_cmp (values settings.now) (item_value a.now) (item_value b.now) }
{
    settings
        .order_names(a.name.as_str(), b.name.as_str())
        .then_with(|| alias_cmp(settings, text_of(&a.alias), text_of(&b.alias)))
}
