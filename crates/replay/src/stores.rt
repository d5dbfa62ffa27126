// The tables and stores that are lent to the agent.
use agent::agent::{process_answer, process_incoming, setup};
use agent::process::Processed;
use agent::state::{Agent, Given};
use codec::refusals::Refusal;
use codec::submessages::ObjectNumber;
use hours::windows::WindowRow;
use moves::proxy::BridgeAnswer;
use sessions::objects::Object;
use sessions::stream_rows::StreamRow;
use sessions::table::SessionRow;
use std::alloc::{AllocError, Global};

#[derive(Drop)]
pub struct Stores {
    pub sessions: Vec<SessionRow>,
    pub streams: Vec<StreamRow>,
    pub objects: Vec<Object>,
    pub held: Vec<u8>,
    pub parts: Vec<u8>,
    pub lengths: Vec<u32>,
    pub rebuilt: Vec<u8>,
    pub hours: Vec<u8>,
}

impl Stores {
    // The stores of held messages and of fragments have 114,688 and 33,024 bytes for each client, and are for 255 clients: a
    // `setup` of more is refused as 16.
    pub fn new(alloc: Global) -> Result<Self, AllocError> {
        let nothing = Object::implicit(ObjectNumber(0), 0, 0);
        Ok(Stores {
            sessions: vec![in alloc; [0; 8]; 256]?,
            streams: vec![in alloc; [0; 35]; 2048]?,
            objects: vec![in alloc; nothing; 8192]?,
            held: vec![in alloc; 0; 29245440]?,
            parts: vec![in alloc; 0; 8355840]?,
            lengths: vec![in alloc; 0; 16320]?,
            rebuilt: vec![in alloc; 0; 32768]?,
            hours: vec![in alloc; 0; 10080]?,
        })
    }

    pub fn setup(
        &mut self,
        windows: &[WindowRow],
        max_clients: usize,
        timeout_ms: u64,
    ) -> Result<Agent, Refusal> {
        setup(
            &mut self.sessions,
            &mut self.streams,
            &mut self.objects,
            &self.held,
            &self.parts,
            &self.lengths,
            &self.rebuilt,
            &mut self.hours,
            windows,
            max_clients,
            timeout_ms,
        )
    }

    pub fn incoming(
        &mut self,
        out: &mut [u8],
        datagram: &[u8],
        agent: Agent,
        given: Given,
    ) -> Processed {
        process_incoming(
            &mut self.sessions,
            &mut self.streams,
            &mut self.objects,
            &mut self.held,
            &mut self.parts,
            &mut self.lengths,
            &mut self.rebuilt,
            &self.hours,
            out,
            datagram,
            agent,
            given,
        )
    }

    pub fn answered(
        &mut self,
        out: &mut [u8],
        datagram: &[u8],
        sample: &[u8],
        agent: Agent,
        answer: BridgeAnswer,
    ) -> Processed {
        process_answer(
            &mut self.sessions,
            &mut self.streams,
            &mut self.objects,
            &mut self.held,
            &mut self.parts,
            &mut self.lengths,
            &mut self.rebuilt,
            out,
            datagram,
            sample,
            agent,
            answer,
        )
    }
}
