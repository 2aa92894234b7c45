//! The service that words ask for.
ghost use Rattle.std.specs.Prelude.{◌≡◌, ◌≤◌};

use crate::file_name::FileName;
use crate::workers::Workers;
use std::marker::Model;

/// An order desk at a port: its store, the port of the machine, how many workers serve, and after how many links it ends.
#[derive(Drop)]
pub struct Service {
    store: FileName,
    port: u16,
    workers: Workers,
    links: u32,
}

impl Model for Service {
    ghost use Rattle.command_words.specs.Service.{Service};

    ghost Value = { Service };

    ghost view = { λ s. record { store = s.store; port = s.port; workers = s.workers; links = s.links } };
}

impl Service {
    pub fn of(store: FileName, port: u16, workers: Workers, links: u32) -> Service
        ensures { result ≡ record { store = store; port = port; workers = workers; links = links } }
    {
        Service {
            store,
            port,
            workers,
            links,
        }
    }

    pub fn store(&self) -> &str
        ensures { result.now ≡ self.now.store }
    {
        self.store.as_str()
    }

    pub fn port(&self) -> u16
        ensures { result ≡ self.now.port }
    {
        self.port
    }

    pub fn workers(&self) -> u32
        ensures value { result ≡ self.now.workers }
        ensures some { 1 ≤ result }
    {
        self.workers.count()
    }

    pub fn links(&self) -> u32
        ensures { result ≡ self.now.links }
    {
        self.links
    }
}
