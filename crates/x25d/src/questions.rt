//! What the service answers at its control port.
use crate::asking::REFUSED;
use crate::controls::{Control, Question};
use crate::log::Log;
use crate::names::Names;
use crate::serving::Running;
use crate::status::status_of;
use status_texts::status_text;
use std::alloc::{AllocError, Global};
use std::io;

/// Reads a question, answers it, and says whether the connection is still wanted.
pub(crate) fn serve_control(
    rt: &HostRuntime,
    service: &mut Running,
    names: Names<'_>,
    log: &mut Log,
    control: &mut Control,
) -> bool {
    let heard = match control.question() {
        Ok(None) => Ok(()),
        Ok(Some(question)) => answer(rt, service, names, log, control, question),
        Err(error) => Err(error),
    };
    heard.is_ok() && control.write()
}

/// Answers a question.
fn answer(
    rt: &HostRuntime,
    service: &mut Running,
    names: Names<'_>,
    log: &mut Log,
    control: &mut Control,
    question: Question,
) -> io::Result<()> {
    match question {
        Question::Status => control.answer(status(rt.alloc(), service, names, log)?),
        Question::Clear(port) => control.answer(clear(rt, service, log, port)?),
        Question::Stop => {
            log.stop(rt);
            service.stop();
            control.stay();
        }
        Question::Unknown => control.answer(String::from_str(rt.alloc(), REFUSED)?),
    }
    Ok(())
}

/// The status as text.
fn status(
    alloc: Global,
    service: &Running,
    names: Names<'_>,
    log: &Log,
) -> Result<String, AllocError> {
    status_text(alloc, &status_of(alloc, service, names, log)?)
}

/// Has the connection of a port go, if there is one. The answer is what is told of it.
fn clear(
    rt: &HostRuntime,
    service: &mut Running,
    log: &mut Log,
    port: usize,
) -> io::Result<String> {
    match service.status(port) {
        Some(status) if status.in_use => {
            log.clear(rt, port);
            service.end(port);
            Ok(String::new(rt.alloc()))
        }
        _ => Ok(String::from_str(rt.alloc(), REFUSED)?),
    }
}
