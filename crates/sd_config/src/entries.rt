ghost use Rattle.std.specs.Prelude.{◌≡◌, codes};
ghost use Rattle.toml.specs.Data.{get_member};
ghost use Rattle.toml.specs.View.{table_view};
ghost use Rattle.sd_model_settings.specs.Values.{both, required, whole_read, text, is_host, mapped, entry};
ghost use Rattle.sd_config.specs.Answers.{seen_by};
ghost use Rattle.sd_plan.specs.Entries.{classes_view, target_view, node_view};
ghost use Rattle.sd_model_settings.specs.Entries.{host_and_port};

use crate::bins::required_bins;
use crate::fault::ValueFault;
use crate::fields::{both, optional_port, required_port, required_text};
use crate::lists::Element;
use crate::values::TextRule;
use sd_outside::Name;
use sd_plan::{Classes, Node, Target};
use toml::{Table, Value};

// The host and the port of an entry.
fn place_of(table: &Table) -> Result<(Name, u16), ValueFault>
    ensures { seen_by (λ p. (p.0.items, p.1)) result
        ≡ both (required (text is_host) (get_member (codes "host") (table_view table.now)))
        (required (whole_read 1 65535) (get_member (codes "port") (table_view table.now))) }
{
    both(
        required_text(table, "host", TextRule::Host),
        required_port(table, "port"),
    )
}

impl Element<()> for Classes {
    ghost use Rattle.sd_model_settings.specs.Entries.{Classes as ModelClasses, classes};

    ghost Seen = { ModelClasses };

    ghost seen = { classes_view };

    ghost reads = { λ rule. classes };

    fn read(value: &Value, _rule: ()) -> Result<Classes, ValueFault> {
        let Value::Table(table) = value else {
            return Err(ValueFault::Kind);
        };
        let (metric, limits) = both(
            required_text(table, "metric", TextRule::Metric),
            required_bins(table, "bins"),
        )?;
        Ok(Classes { metric, limits })
    }
}

impl Element<()> for Node {
    ghost use Rattle.sd_model_settings.specs.Entries.{Node as ModelNode, node};

    ghost Seen = { ModelNode };

    ghost seen = { node_view };

    ghost reads = { λ rule. node };

    fn read(value: &Value, _rule: ()) -> Result<Node, ValueFault> {
        let Value::Table(table) = value else {
            return Err(ValueFault::Kind);
        };
        let ((host, port), adminport) = both(
            place_of(table),
            optional_port(table, "adminport", 8126),
        )?;
        Ok(Node {
            host,
            port,
            adminport,
        })
    }
}

impl Element<()> for Target {
    ghost use Rattle.sd_model_settings.specs.Entries.{Target as ModelTarget};

    ghost Seen = { ModelTarget };

    ghost seen = { target_view };

    ghost reads = { λ rule. entry (λ ms. mapped (λ p. record { host = p.0; port = p.1 }) (host_and_port ms)) };

    fn read(value: &Value, _rule: ()) -> Result<Target, ValueFault> {
        let Value::Table(table) = value else {
            return Err(ValueFault::Kind);
        };
        let (host, port) = place_of(table)?;
        Ok(Target { host, port })
    }
}
