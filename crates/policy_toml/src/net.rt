//! The table `net` of a policy: the networks and ports to which sockets may connect and bind, and whether names are resolved.

ghost use Rattle.std.specs.Prelude.{◌≡◌, IfOk};
ghost use Rattle.toml.specs.View.{table_view};
ghost use Rattle.policy_toml.specs.Reading.{Gives};
ghost use Rattle.policy_toml.specs.Values.{number_in};
ghost use Rattle.policy_toml.specs.Net.{all_ports, net_at, net_keys, net_of, port_in, ports_in, range_keys, range_of, rule_keys, rule_of, rules_in, network_in};

use crate::keys::{bad_value, member_of, over_limit};
use crate::lists::{Each, List, item_count};
use crate::reader::{Known, Reader, TableReader, optional, required};
use crate::values::Boolean;
use policy_data::{NetRules, Network, PortRange, Ranges, ReadPolicyFault, Rule, Rules, Sockets};
use policy_text::network_of;
use std::alloc::Global;
use toml::{Table, Value};
use virt_base::{Items, NoMemory};

/// A network.
#[derive(Drop)]
struct NetworkReader;

impl Reader for NetworkReader {
    type Item = Network;

    ghost reads = { λ _. network_in };

    fn read(&self, alloc: Global, path: &str, value: &Value) -> Result<Network, ReadPolicyFault> {
        let text = match value.as_str() {
            Some(text) => text,
            None => return bad_value(alloc, path),
        };
        match network_of(alloc, text.as_bytes())? {
            Some(network) => Ok(network),
            None => bad_value(alloc, path),
        }
    }
}

/// A port: 0 to 65535.
#[derive(Drop)]
struct Port;

impl Reader for Port {
    type Item = u16;

    ghost reads = { λ _. number_in 0 65535 };

    fn read(&self, alloc: Global, path: &str, value: &Value) -> Result<u16, ReadPolicyFault> {
        let number = match value.as_integer() {
            Some(number) => number,
            None => return bad_value(alloc, path),
        };
        if number < 0 {
            return bad_value(alloc, path);
        }
        if number > 65_535 {
            return over_limit(alloc, path, number as u64);
        }
        Ok(number as u16)
    }
}

#[derive(Drop)]
struct RangeFields;

impl TableReader for RangeFields {
    type Item = PortRange;

    ghost known = { λ _. range_keys };

    ghost fields = { λ _. range_of };

    fn known(&self) -> &'static [&'static str] {
        &["from", "to"]
    }

    fn fields(
        &self,
        alloc: Global,
        path: &str,
        table: &Table,
    ) -> Result<PortRange, ReadPolicyFault> {
        let from = required(alloc, path, "from", &Port, table)?;
        let to = required(alloc, path, "to", &Port, table)?;
        if to < from {
            return bad_value(alloc, path);
        }
        Ok(PortRange { from, to })
    }
}

/// A port, or the first and the last of a range.
#[derive(Drop)]
struct PortReader;

impl Reader for PortReader {
    type Item = PortRange;

    ghost reads = { λ _. port_in };

    fn read(&self, alloc: Global, path: &str, value: &Value) -> Result<PortRange, ReadPolicyFault> {
        match value.as_table() {
            Some(_) => Known(RangeFields).read(alloc, path, value),
            None => {
                let port = Port.read(alloc, path, value)?;
                Ok(PortRange {
                    from: port,
                    to: port,
                })
            }
        }
    }
}

#[derive(Drop)]
struct PortsReader;

impl Reader for PortsReader {
    type Item = Ranges;

    ghost reads = { λ _. ports_in };

    fn read(&self, alloc: Global, path: &str, value: &Value) -> Result<Ranges, ReadPolicyFault> {
        let is_empty = match value.as_array() {
            Some(array) => item_count(array) == 0,
            None => true,
        };
        if is_empty {
            return bad_value(alloc, path);
        }
        let ports = List {
            greatest: 64,
            item: Each(PortReader),
        };
        ports.read(alloc, path, value)
    }
}

fn all_ports(alloc: Global) -> Result<Ranges, NoMemory>
    ensures { IfOk result (λ ports. ports ≡ all_ports) }
{
    let mut ports = Items::empty(alloc);
    ports.push(PortRange {
        from: 0,
        to: 65_535,
    })?;
    Ok(ports)
}

#[derive(Drop)]
struct RuleFields;

impl TableReader for RuleFields {
    type Item = Rule;

    ghost known = { λ _. rule_keys };

    ghost fields = { λ _. rule_of };

    fn known(&self) -> &'static [&'static str] {
        &["network", "ports"]
    }

    fn fields(&self, alloc: Global, path: &str, table: &Table) -> Result<Rule, ReadPolicyFault> {
        let network = required(alloc, path, "network", &NetworkReader, table)?;
        let ports = optional(alloc, path, "ports", all_ports(alloc)?, &PortsReader, table)?;
        Ok(Rule {
            six: network.six,
            numbers: network.numbers,
            length: network.length,
            ports,
        })
    }
}

#[derive(Drop)]
struct RulesReader;

impl Reader for RulesReader {
    type Item = Rules;

    ghost reads = { λ _. rules_in };

    fn read(&self, alloc: Global, path: &str, value: &Value) -> Result<Rules, ReadPolicyFault> {
        let rules = List {
            greatest: 256,
            item: Each(Known(RuleFields)),
        };
        rules.read(alloc, path, value)
    }
}

#[derive(Drop)]
struct NetFields;

impl TableReader for NetFields {
    type Item = NetRules;

    ghost known = { λ _. net_keys };

    ghost fields = { λ _. net_of };

    fn known(&self) -> &'static [&'static str] {
        &["connect", "bind", "names"]
    }

    fn fields(
        &self,
        alloc: Global,
        path: &str,
        table: &Table,
    ) -> Result<NetRules, ReadPolicyFault> {
        let connect = optional(
            alloc,
            path,
            "connect",
            Items::empty(alloc),
            &RulesReader,
            table,
        )?;
        let bind = optional(
            alloc,
            path,
            "bind",
            Items::empty(alloc),
            &RulesReader,
            table,
        )?;
        let names = optional(alloc, path, "names", false, &Boolean, table)?;
        Ok(NetRules {
            connect,
            bind,
            names,
        })
    }
}

/// What `net` says, which may be there only where the sockets go by rules.
pub fn net_at(alloc: Global, sockets: Sockets, table: &Table) -> Result<NetRules, ReadPolicyFault>
    ensures { Gives (net_at sockets (table_view table.now)) result }
{
    match member_of(table, "net") {
        None => {
            let empty = Table::new(alloc);
            NetFields.fields(alloc, "net", &empty)
        }
        Some(value) => match sockets {
            Sockets::Rules => Known(NetFields).read(alloc, "net", value),
            Sockets::Allow => bad_value(alloc, "net"),
            Sockets::Deny => bad_value(alloc, "net"),
        },
    }
}
