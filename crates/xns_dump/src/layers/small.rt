//! What lines of Echo, Error and Packet Exchange say.
ghost use Rattle.std.specs.Prelude.{codes, if◌then◌else◌};
ghost use Rattle.xns_small.specs.Echo.{echo_model};
ghost use Rattle.xns_small.specs.ErrorReport.{error_report_model};
ghost use Rattle.xns_small.specs.Exchange.{exchange_model};
ghost use Rattle.xns_dump.specs.Layers.Small.{echo_text, error_text, exchange_fields, exchange_text, inner_fault_text, inner_refusal_text};
ghost use Rattle.xns_lines.specs.Report.{Adds};

use crate::layers::courier::append_field;
use crate::layers::line::LineText;
use crate::layers::text::append_named;
use std::alloc::AllocError;
use xns_lines::Report;
use xns_lines::numbers::{append_bytes_or_dash, append_decimal, append_hex};
use xns_small::{Echo, ErrorReport, Exchange, SmallFault};

impl LineText for Echo<'_> {
    ghost text = { λ echo. echo_text (echo_model echo) };

    #[tactic(auto, unfolding(crate::specs::Layers::Small::echo_text))]
    fn append_text(&self, report: &mut Report) -> Result<(), AllocError> {
        append_operation(report, self.reply)?;
        append_bytes_or_dash(report, self.body)
    }
}

/// Appends whether an Echo is a request or a reply.
fn append_operation(report: &mut Report, reply: bool) -> Result<(), AllocError>
    ensures { Adds result report.old report.new (if reply then codes " echo reply " else codes " echo request ") }
{
    if reply {
        report.append(b" echo reply ")
    } else {
        report.append(b" echo request ")
    }
}

impl LineText for ErrorReport<'_> {
    ghost text = { λ error. error_text (error_report_model error) };

    #[tactic(auto, unfolding(crate::specs::Layers::Small::error_text))]
    fn append_text(&self, report: &mut Report) -> Result<(), AllocError> {
        append_field(report, b" error ", self.number)?;
        append_field(report, b" parameter ", self.parameter)?;
        report.append(b" quoted ")?;
        append_bytes_or_dash(report, self.quoted)
    }
}

impl LineText for Exchange<'_> {
    ghost text = { λ exchange. exchange_text (exchange_model exchange) };

    fn append_text(&self, report: &mut Report) -> Result<(), AllocError> {
        report.append(b" exchange id ")?;
        append_exchange_fields(report, self)
    }
}

#[tactic(auto, unfolding(crate::specs::Layers::Small::exchange_fields))]
fn append_exchange_fields(report: &mut Report, exchange: &Exchange<'_>) -> Result<(), AllocError>
    ensures { Adds result report.old report.new (exchange_fields (exchange_model exchange.now)) }
{
    append_hex(report, &exchange.id.to_be_bytes())?;
    report.append(b" client ")?;
    append_decimal(report, usize::from(exchange.client))?;
    report.append(b" body ")?;
    append_bytes_or_dash(report, exchange.body)
}

/// A body that is not what its packet type says.
impl LineText for SmallFault {
    ghost text = { inner_refusal_text };

    fn append_text(&self, report: &mut Report) -> Result<(), AllocError> {
        report.append(b" inner refused ")?;
        append_inner_fault(report, *self)
    }
}

#[tactic(auto, unfolding(crate::specs::Layers::Small::inner_fault_text))]
fn append_inner_fault(report: &mut Report, fault: SmallFault) -> Result<(), AllocError>
    ensures { Adds result report.old report.new (inner_fault_text fault) }
{
    match fault {
        SmallFault::Short { have } => append_named(report, b"Short ", have),
        SmallFault::EchoOperation { found } => append_field(report, b"EchoOperation ", found),
    }
}
