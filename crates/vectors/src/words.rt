// What was read, in words. Each struct here is of our own, since `Display` can be written only for a type of this crate.
use codec::{Message, Subject};
use octets::Data;
use std::fmt;

// Dir/Pri 1 means that the address is the source (000, 3.2.1.1).
#[derive(Clone, Copy)]
struct Address {
    dir: u8,
    number: u8,
}

impl fmt::Display for Address {
    fn fmt<W: fmt::Write>(&self, f: &mut fmt::Formatter<W>) -> fmt::Result {
        let way = if self.dir == 1 { "from" } else { "to" };
        write!(f, "{way} {}", self.number)
    }
}

// 000, figure 3.8.
fn response_name(response: u8) -> &'static str {
    match response {
        codec::REQUEST => "request",
        codec::SUCCESSFUL => "successful",
        codec::ERRONEOUS => "error",
        _ => "wait",
    }
}

#[derive(Clone, Copy)]
struct About(Subject);

impl fmt::Display for About {
    fn fmt<W: fmt::Write>(&self, f: &mut fmt::Formatter<W>) -> fmt::Result {
        let u = self.0;
        let address = Address {
            dir: u.dir,
            number: u.address,
        };
        let response = response_name(u.response);
        write!(
            f,
            "{address} service {} {response} object {} id {}",
            u.service, u.object, u.id
        )
    }
}

#[derive(Clone, Copy)]
struct Body(Data);

impl fmt::Display for Body {
    fn fmt<W: fmt::Write>(&self, f: &mut fmt::Formatter<W>) -> fmt::Result {
        let places = octets::places_of(self.0);
        write!(f, "data")?;
        for byte in places.iter().take(self.0.len as usize) {
            write!(f, " {byte:02x}")?;
        }
        Ok(())
    }
}

// 000, figure 3.4.
fn short_service_name(service: u8) -> &'static str {
    match service {
        codec::CHANGE_OFF => "Change of State OFF",
        codec::CHANGE_ON => "Change of State ON",
        codec::CHANGE_OFF_ACK => "Change of State OFF ACK",
        codec::CHANGE_ON_ACK => "Change of State ON ACK",
        codec::WRITE_OFF => "Write OFF State",
        codec::WRITE_ON => "Write ON State",
        codec::WRITE_OFF_ACK => "Write OFF State ACK",
        codec::WRITE_ON_ACK => "Write ON State ACK",
        _ => "no short service",
    }
}

#[derive(Clone, Copy)]
pub(crate) struct Words(pub(crate) Message);

impl fmt::Display for Words {
    fn fmt<W: fmt::Write>(&self, f: &mut fmt::Formatter<W>) -> fmt::Result {
        match self.0 {
            Message::Short {
                dir,
                address,
                service,
            } => {
                let address = Address {
                    dir,
                    number: address,
                };
                let name = short_service_name(service);
                write!(f, "{address} short {name}")
            }
            Message::Plain { about, body } => write!(f, "{} {}", About(about), Body(body)),
            Message::Fragment {
                about,
                number,
                total,
                body,
            } => {
                let about = About(about);
                let body = Body(body);
                write!(f, "{about} fragment {number} of {total} {body}")
            }
        }
    }
}
