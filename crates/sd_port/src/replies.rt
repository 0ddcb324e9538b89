//! What is replied to a line.
ghost use Rattle.std.specs.Prelude.{◌≡◌, ◌++◌, OnOk, OnErr, codes, ◌∷◌, []};
ghost use Rattle.std.specs.List.{concat};
ghost use Rattle.sd_model_outside.specs.Outside.{HasFailedBehind, given};
ghost use Rattle.sd_model_record.specs.Replies.{end_lines};
ghost use Rattle.sd_model_record.specs.Totals.{totals_text};
ghost use Rattle.sd_model_live.specs.Port.{port_reply};
ghost use Rattle.sd_proxy_desk.specs.Views.{facts_view};
ghost use Rattle.sd_port.specs.Commands.{answer_view};

use crate::command::PortCommand;
use crate::node_lines::NodesReply;
use sd_admin::{AdminFault, Reply, push_total};
use sd_config::{Settings, write_lines};
use sd_decimal::Line;
use sd_outside::{Failed, Sink, write_all};
use sd_proxy_desk::ProxyFacts;

/// The reply to `totals`.
fn totals_reply(facts: &ProxyFacts) -> Line
    ensures { result.items ≡ totals_text ((facts_view facts.now).totals ++ (codes "checks", (facts_view facts.now).checks) ∷ (codes "probe_faults", (facts_view facts.now).probe_faults) ∷ []) ++ concat end_lines }
{
    let mut text = Line::new();
    let totals = &facts.totals;
    push_total(b"packets", u128::from(totals.packets), &mut text);
    push_total(b"lines", u128::from(totals.lines), &mut text);
    push_total(b"bad", u128::from(totals.bad), &mut text);
    push_total(b"sent", u128::from(totals.sent), &mut text);
    push_total(b"unowned", u128::from(totals.unowned), &mut text);
    push_total(b"send_faults", u128::from(totals.send_faults), &mut text);
    push_total(b"checks", u128::from(facts.checks), &mut text);
    push_total(b"probe_faults", u128::from(facts.probe_faults), &mut text);
    text.try_extend_from_slice(b"END\n\n").unwrap();
    text
}

/// What a line is answered from: the settings, what the desk told of the proxy before the line, and the set of the nodes that are up,
/// where the line asks for it.
#[derive(Clone, Copy, Debug)]
pub(crate) struct ReplyBasis<'a> {
    pub settings: &'a Settings,
    pub facts: &'a ProxyFacts,
    pub up: u64,
}

/// Writes what is replied to a command, or to a line that is none.
///
/// # Errors
///
/// `Failed` where the output failed. Then a prefix of the reply was written.
pub(crate) fn write_port_reply<O: Sink>(
    basis: &ReplyBasis<'_>,
    command: Option<PortCommand>,
    output: &mut O,
) -> Result<(), Failed>
    ensures ok { OnOk result (O.seen output.new ≡ given (port_reply basis.now.settings.now (facts_view basis.now.facts.now) basis.now.up (answer_view command)) (O.seen output.old)) }
    ensures failed { OnErr result (HasFailedBehind (port_reply basis.now.settings.now (facts_view basis.now.facts.now) basis.now.up (answer_view command)) (O.seen output.old) (O.seen output.new)) }
{
    let settings = basis.settings;
    let Some(command) = command else {
        let fault = AdminFault::UnknownWord;
        return write_lines(&Reply::Fault { fault }, output);
    };
    match command {
        PortCommand::Health(word) => {
            let up = word.health_after(basis.facts.up);
            write_lines(&Reply::Health { up }, output)
        }
        PortCommand::Totals => write_all(output, totals_reply(basis.facts).as_slice()),
        PortCommand::Nodes => {
            let (nodes, up) = (settings.nodes(), basis.up);
            write_lines(&NodesReply { nodes, up }, output)
        }
        PortCommand::Config => write_lines(&Reply::Config { settings }, output),
        PortCommand::Quit => write_all(output, b""),
    }
}
