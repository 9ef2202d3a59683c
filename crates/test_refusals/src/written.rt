use crate::internet::REQUEST;
use crate::outcome::{Outcome, done, refused};
use std::alloc::{AllocError, Global};
use test_setting::{ECHO_REQUEST, FIRST_HEADER};
use xns_idp::{Packet, encode, encode_parts};
use xns_small::{Echo, ErrorReport, Exchange, write_echo, write_error, write_exchange};
use xns_spp::write_header;

/// The bytes that are written behind the one byte that a vector has.
#[derive(Clone, Copy)]
pub enum Written {
    Packet,
    /// A packet whose data lie in two places.
    Parts,
    Echo,
    Error,
    Exchange,
    Header,
}

/// The byte that the vector has.
const BEFORE: u8 = 0xaa;

impl Written {
    /// Writes the bytes behind the byte that the vector has.
    fn write(self, alloc: Global, out: &mut Vec<u8>) -> Result<(), AllocError> {
        match self {
            Written::Packet => encode(alloc, &REQUEST, out),
            Written::Parts => {
                let packet = Packet {
                    body: &[0, 1],
                    ..REQUEST
                };
                encode_parts(alloc, &packet, &[0x48, 0x69], out)
            }
            Written::Echo => {
                let echo = Echo {
                    reply: true,
                    body: &[5; 100],
                };
                write_echo(alloc, &echo, out)
            }
            Written::Error => {
                let report = ErrorReport {
                    number: 1,
                    parameter: 0,
                    quoted: &ECHO_REQUEST,
                };
                write_error(alloc, &report, out)
            }
            Written::Exchange => {
                let exchange = Exchange {
                    id: 7,
                    client: 3,
                    body: &[5; 100],
                };
                write_exchange(alloc, &exchange, out)
            }
            Written::Header => write_header(alloc, &FIRST_HEADER, out),
        }
    }

    /// Whether these are the bytes that are written.
    fn is(self, bytes: &[u8]) -> bool {
        match self {
            Written::Packet | Written::Parts => bytes == ECHO_REQUEST.as_slice(),
            Written::Echo => bytes.len() == 102,
            Written::Error => bytes.len() == 38,
            Written::Exchange => bytes.len() == 106,
            Written::Header => bytes.len() == 12,
        }
    }

    /// Whether the written bytes stand behind the byte that was there before.
    fn stands_in(self, out: &[u8]) -> bool {
        match out {
            [first, rest @ ..] => *first == BEFORE && self.is(rest),
            [] => false,
        }
    }

    /// The outcome of writing behind the one byte of the vector.
    fn outcome_in(self, alloc: Global, out: &mut Vec<u8>) -> Outcome {
        if self.write(alloc, out).is_ok() {
            return done(self.stands_in(out));
        }
        let stood = out.as_slice() == [BEFORE].as_slice();
        let again = self.write(alloc, out).is_ok();
        refused(stood, again && self.stands_in(out))
    }

    /// The outcome of writing.
    pub fn outcome(self, alloc: Global) -> Result<Outcome, AllocError> {
        let mut out = vec![in alloc; BEFORE]?;
        Ok(self.outcome_in(alloc, &mut out))
    }
}
