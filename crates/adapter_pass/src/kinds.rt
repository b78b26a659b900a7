//! The kinds of resources of the listed interfaces of WASI 0.2, by their numbers.

/// The kinds of resources of the listed interfaces, by their numbers.
#[derive(Clone, Copy, PartialEq, Eq, Debug)]
pub enum Kind {
    Error,
    Pollable,
    InputStream,
    OutputStream,
    TerminalInput,
    TerminalOutput,
    Descriptor,
    DirectoryEntryStream,
    Network,
    ResolveAddressStream,
    TcpSocket,
    UdpSocket,
    IncomingDatagramStream,
    OutgoingDatagramStream,
}

const ALL: [Kind; 14] = [
    Kind::Error,
    Kind::Pollable,
    Kind::InputStream,
    Kind::OutputStream,
    Kind::TerminalInput,
    Kind::TerminalOutput,
    Kind::Descriptor,
    Kind::DirectoryEntryStream,
    Kind::Network,
    Kind::ResolveAddressStream,
    Kind::TcpSocket,
    Kind::UdpSocket,
    Kind::IncomingDatagramStream,
    Kind::OutgoingDatagramStream,
];

impl Kind {
    /// The kind with a number.
    pub fn numbered(number: u32) -> Option<Kind> {
        let place = number as usize;
        if place < ALL.len() {
            Some(ALL[place])
        } else {
            None
        }
    }

    /// Its number.
    pub fn number(self) -> u8 {
        self as u8
    }
}
