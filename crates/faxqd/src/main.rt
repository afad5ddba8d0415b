//! faxqd: the send queue of a fax server.
#![tactic(auto)]

mod check;
mod client;
mod command;
mod import;
mod laws;
mod list;
mod post;
mod queue;
mod replay;
mod saying;
mod serve;
mod settings;
mod worker;

use fax_http::Watched;
use fax_net::{MachineNetwork, Sockets};
use sqlite::Unknown;
use std::process::ExitCode;
use std::{env, io};

/// The words that the program was called with, its name first.
fn called_with(rt: &HostRuntime) -> io::Result<Vec<String>> {
    Ok(env::args(rt)?.collect(rt.alloc())?)
}

// The types of the streams are named, so that no two of them can change places.
fn main(rt: HostRuntime) -> ExitCode {
    let status = match called_with(&rt) {
        Ok(words) => command::run::<
            Sockets<'_>,
            MachineNetwork<'_>,
            Unknown,
            io::Stdin,
            io::Stdout,
            io::Stderr,
        >(
            &rt,
            words.as_slice(),
            MachineNetwork::new(&rt),
            Unknown,
            &mut Watched::new(rt.stdin()),
            &mut Watched::new(rt.stdout()),
            &mut Watched::new(rt.stderr()),
        ),
        Err(error) => command::refuse_words(&mut Watched::new(rt.stderr()), error.kind()),
    };
    ExitCode::from(status)
}
