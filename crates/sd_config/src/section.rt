ghost use Rattle.std.specs.Prelude.{◌≡◌, ◌+◌, ◌≤◌, [], ◌∷◌, ◌++◌, length, map};
ghost use Rattle.std.specs.Option.{option_map};
ghost use Rattle.toml.specs.Data.{get_member, no_members};
ghost use Rattle.toml.specs.View.{view, table_view};
ghost use Rattle.sd_model_outside.specs.Backend.{backends};
ghost use Rattle.sd_model_settings.specs.Values.{whole_read, flag, text, listed, members, ranged, are_distinct};
ghost use Rattle.sd_model_settings.specs.Entries.{thresholds, Share, read_as, is_backend, is_class_name};
ghost use Rattle.sd_model_settings.specs.Settings.{with_name, found};
ghost use Rattle.sd_config.specs.Answers.{Gives, seen_by};
ghost use Rattle.sd_config.specs.Values.{passes, section_of, members_of};
ghost use Rattle.sd_plan.specs.Values.{micros, name_bytes};
ghost use Rattle.std.specs.Str.{bytes_eq};

use crate::backends::MOST_BACKENDS;
use crate::fault::{ConfigFault, ValueFault, shown};
use crate::fields::found;
use crate::lists::{self, Element};
use crate::values::{self, TextRule};
use crate::{backends, thresholds};
use arrayvec::ArrayVec;
use sd_decimal::Micro;
use sd_outside::Name;
use sd_plan::name_of;
use toml::{Table, Value};

/// A table of settings, where it is there, and what stands before its names in a fault.
#[derive(Clone, Copy)]
pub(crate) struct Section<'a> {
    pub(crate) prefix: &'a str,
    pub(crate) table: Option<&'a Table>,
}

fn table(value: &Value) -> Result<&Table, ValueFault>
    ensures { seen_by (λ t. table_view t.now) result ≡ members (view value.now) }
{
    match value {
        Value::Table(table) => Ok(table),
        _ => Err(ValueFault::Kind),
    }
}

impl<'a> Section<'a> {
    fn get(&self, name: &str) -> Option<&'a Value>
        ensures { option_map (λ v. view v.now) result
            ≡ get_member name.now (members_of self.now.table) }
    {
        match self.table {
            Some(table) => found(table, name),
            None => None,
        }
    }

    // What was read, with the setting's name beside what is wrong.
    fn named<T>(&self, name: &str, read: Result<T, ValueFault>) -> Result<T, ConfigFault>
        ensures { Gives (λ x. x) result
            (with_name (self.now.prefix.now ++ name.now) (seen_by (λ x. x) read)) }
    {
        match read {
            Ok(value) => Ok(value),
            Err(ValueFault::Kind) => Err(ConfigFault::WrongKind {
                name: shown(self.prefix, name),
            }),
            Err(ValueFault::Range) => Err(ConfigFault::OutOfRange {
                name: shown(self.prefix, name),
            }),
        }
    }

    /// An integer from `least` to `most`.
    pub(crate) fn whole(
        &self,
        name: &str,
        least: u32,
        most: u32,
        default: u32,
    ) -> Result<u32, ConfigFault>
        ensures { Gives (λ n. n) result
            (found (section_of self.now) name.now (whole_read least most) default) }
    {
        match self.get(name) {
            None => Ok(default),
            Some(value) => self.named(name, values::whole(value, least, most)),
        }
    }

    /// An integer from `least` to `most`, whose product with an earlier one is at most `all`.
    pub(crate) fn share(
        &self,
        name: &str,
        least: u32,
        most: u32,
        all: u64,
        earlier: u32,
        default: u32,
    ) -> Result<u32, ConfigFault>
        ensures { Gives (λ n. n) result
            (found (section_of self.now) name.now (read_as (Share least most all earlier)) default) }
    {
        match self.get(name) {
            None => Ok(default),
            Some(value) => self.named(name, values::share(value, least, most, all, earlier)),
        }
    }

    /// A boolean.
    pub(crate) fn flag(&self, name: &str, default: bool) -> Result<bool, ConfigFault>
        ensures { Gives (λ b. b) result (found (section_of self.now) name.now flag default) }
    {
        match self.get(name) {
            None => Ok(default),
            Some(value) => self.named(name, values::flag(value)),
        }
    }

    /// A string that passes the rule.
    pub(crate) fn text(
        &self,
        name: &str,
        rule: TextRule,
        default: &str,
    ) -> Result<Name, ConfigFault>
        requires { length default.now ≤ 255 }
        ensures { Gives (λ n. n.items) result
            (found (section_of self.now) name.now (text (passes rule)) default.now) }
    {
        match self.get(name) {
            None => Ok(name_of(default.as_bytes())),
            Some(value) => self.named(name, values::text(value, rule)),
        }
    }

    /// Thresholds.
    pub(crate) fn thresholds(
        &self,
        name: &str,
        default: i64,
    ) -> Result<ArrayVec<Micro, 16>, ConfigFault>
        ensures { Gives (λ v. micros v.items) result
            (found (section_of self.now) name.now thresholds (default ∷ [])) }
    {
        match self.get(name) {
            None => {
                let mut one = ArrayVec::new();
                one.push(Micro(default));
                Ok(one)
            }
            Some(value) => self.named(name, thresholds::thresholds_in(value)),
        }
    }

    /// The names of backends.
    pub(crate) fn backends(
        &self,
        name: &str,
        default: &str,
    ) -> Result<ArrayVec<Name, MOST_BACKENDS>, ConfigFault>
        requires { length default.now ≤ 255 }
        ensures { Gives (λ v. name_bytes v.items) result
            (found (section_of self.now) name.now (λ d. ranged (are_distinct bytes_eq) (listed (length backends + 1) (text is_backend) d)) (default.now ∷ [])) }
    {
        match self.get(name) {
            None => {
                let mut one = ArrayVec::new();
                one.push(name_of(default.as_bytes()));
                Ok(one)
            }
            Some(value) => self.named(name, backends::backends(value)),
        }
    }

    /// The names of classes of timers' lines, none where the setting isn't given.
    pub(crate) fn class_names(&self, name: &str) -> Result<ArrayVec<Name, 16>, ConfigFault>
        ensures { Gives (λ v. name_bytes v.items) result
            (found (section_of self.now) name.now (λ d. ranged (are_distinct bytes_eq) (listed 16 (text is_class_name) d)) []) }
    {
        match self.get(name) {
            None => Ok(ArrayVec::new()),
            Some(value) => self.named(name, backends::class_names(value)),
        }
    }

    /// A list of at most `N` elements, which is empty where it isn't given.
    pub(crate) fn listed<T: Element<()>, const N: usize>(
        &self,
        name: &str,
    ) -> Result<ArrayVec<T, N>, ConfigFault>
        ensures { Gives (λ v. map T.seen v.items) result
            (found (section_of self.now) name.now (listed N (T.reads tt)) []) }
    {
        match self.get(name) {
            None => Ok(ArrayVec::new()),
            Some(value) => self.named(name, lists::listed(value, ())),
        }
    }

    /// The table under a name, where it is there.
    pub(crate) fn table(&self, name: &str) -> Result<Option<&'a Table>, ConfigFault>
        ensures { Gives members_of result
            (found (section_of self.now) name.now members no_members) }
    {
        match self.get(name) {
            None => Ok(None),
            Some(value) => match table(value) {
                Ok(table) => Ok(Some(table)),
                Err(fault) => self.named(name, Err(fault)),
            },
        }
    }
}
