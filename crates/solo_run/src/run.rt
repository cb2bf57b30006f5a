//! The whole run.
ghost use Rattle.std.specs.Prelude.{◌≡◌, [], IfOk, OnOk};
ghost use Rattle.cfg_tree.specs.declared.script.Script.{Script};
ghost use Rattle.cfg_code.specs.Follows.{Stands};
ghost use Rattle.sim_text.specs.Scenario.{contents_of};
ghost use Rattle.solo_run.specs.Objects.{fresh_tables};
ghost use Rattle.sip_msg.specs.Table.{Reads};
ghost use Rattle.host_meaning.specs.Run.{received};
ghost use Rattle.txn_dialogue.specs.Loose.{Runs};
ghost use Rattle.solo_run.specs.Running.{AreShownBy, IsTurn, played_at, proxy_of, tables_of};
ghost use Rattle.solo_run.specs.Solo.{listening, solo_settings, solo_trace};

use crate::datagram::{is_keepalive, refuse};
use crate::objects::Objects;
use crate::request::{conclude, data_at_first, run_over};
use crate::rooms::Outgoing;
use cfg_code::Loaded;
use cfg_tree::Listen;
use host_meaning::{HostAddress, Hosts, Settings};
use outside_ports::{Addr, Arrival};
use script_host::Workshop;
use sim_text::{Cause, Scenario, push_drop, push_end};
use sip_msg::{Message, Start};
use std::alloc::{AllocError as NoMemory, Global};
use txn_dialogue::laws::a_reading_is_the_message;

/// How many transactions and how many blocks a proxy has where a scenario doesn't say.
const SLOTS: u32 = 2_048;

const BLOCKS: u32 = 8_192;

/// Runs the script over the scenario, and answers the trace.
pub fn solo_trace(alloc: Global, loaded: &Loaded, scenario: Scenario) -> Result<Vec<u8>, NoMemory>
    ensures { IfOk result (λ text. (script : Script) → Stands loaded.now script → text.items ≡ solo_trace script (contents_of scenario)) }
{
    let Scenario {
        hosts,
        arrivals,
        end,
    } = scenario;
    let settings = settings_of(loaded, hosts);
    let mut shop = Workshop::new(alloc, loaded)?;
    let mut worker = Worker::new(alloc, loaded)?;
    for arrival in arrivals.iter() {
        worker.handle(alloc, loaded, &settings, &mut shop, arrival)?;
    }
    let Worker { objects, .. } = worker;
    let Objects { mut trace, .. } = objects;
    push_end(alloc, &mut trace, end, 0)?;
    Ok(trace)
}

/// What a proxy is started with that runs over a scenario.
fn settings_of(loaded: &Loaded, hosts: Vec<HostAddress>) -> Settings
    ensures { (script : Script) → Stands loaded.now script → result ≡ solo_settings script hosts.items }
{
    Settings {
        listen: listening(loaded.parameters.listen),
        epoch: 0,
        slots: SLOTS,
        blocks: BLOCKS,
        hosts: Hosts::of(hosts),
        run_for: None,
    }
}

/// Where it listens: as the script says, or at 127.0.0.1:5060.
fn listening(listen: Option<Listen>) -> Addr
    ensures { result ≡ listening listen }
{
    match listen {
        Some(Listen { ip, port }) => Addr { ip, port },
        None => Addr {
            ip: 0x7f00_0001,
            port: 5060,
        },
    }
}

/// The worker of the run.
#[derive(Drop)]
pub(crate) struct Worker {
    /// The datagram that is handled.
    message: Message,
    room: Outgoing,
    pub(crate) objects: Objects,
}

impl Worker {
    fn new(alloc: Global, loaded: &Loaded) -> Result<Worker, NoMemory>
        ensures tables { IfOk result (λ w. tables_of w.objects ≡ fresh_tables loaded.now.tables) }
        ensures trace { IfOk result (λ w. w.objects.trace.items ≡ []) }
    {
        Ok(Worker {
            message: Message::room(),
            room: Outgoing::new(alloc)?,
            objects: Objects::new(alloc, loaded.tables.as_slice())?,
        })
    }

    /// Handles a datagram, and shows what came of it.
    fn handle(
        &mut self,
        alloc: Global,
        loaded: &Loaded,
        settings: &Settings,
        shop: &mut Workshop<'_>,
        arrival: &Arrival,
    ) -> Result<(), NoMemory>
        requires patterns { shop.old ≡ loaded.now.patterns }
        ensures shown { OnOk result ((script : Script) → Stands loaded.now script
            → IsTurn (proxy_of script settings.now) arrival.now self.old.objects self.new.objects) }
        ensures same { shop.new ≡ shop.old }
    {
        let b = arrival.bytes.as_slice();
        if is_keepalive(b) {
            return push_drop(alloc, &mut self.objects.trace, arrival.at, Cause::Keepalive);
        }
        a_reading_is_the_message();
        match Message::read_into(b, &mut self.message) {
            Ok(()) => match self.message.start {
                Start::Status { .. } => {
                    push_drop(
                        alloc,
                        &mut self.objects.trace,
                        arrival.at,
                        Cause::StrayReply,
                    )
                }
                Start::Request { .. } => self.run_request(alloc, loaded, settings, shop, arrival),
            },
            Err(_) => {
                let trace = &mut self.objects.trace;
                refuse(alloc, b, arrival.from, arrival.at, &mut self.room, trace)
            }
        }
    }

    /// Runs `request_route` over the request that was read, and shows what it decided.
    fn run_request(
        &mut self,
        alloc: Global,
        loaded: &Loaded,
        settings: &Settings,
        shop: &mut Workshop<'_>,
        arrival: &Arrival,
    ) -> Result<(), NoMemory>
        requires patterns { shop.old ≡ loaded.now.patterns }
        requires reads { Reads arrival.now.bytes self.old.message }
        ensures shown { OnOk result ((script : Script) → Stands loaded.now script
            → AreShownBy arrival.now.at
            (played_at (proxy_of script settings.now) arrival.now.at arrival.now.from (Runs (received arrival.now.bytes self.old.message)) (tables_of self.old.objects))
            self.old.objects self.new.objects) }
        ensures same { shop.new ≡ shop.old }
    {
        let (b, source, at) = (arrival.bytes.as_slice(), arrival.from, arrival.at);
        let data = data_at_first(alloc, loaded, b, &self.message, source)?;
        let (data, how) = run_over(
            alloc,
            &*loaded,
            &*settings,
            &*b,
            &self.message,
            shop,
            &mut self.objects,
            at,
            data,
        )?;
        let trace = &mut self.objects.trace;
        let (m, room) = (&self.message, &mut self.room);
        conclude(alloc, b, m, source, at, &data.facts, how, room, trace)
    }
}
