//! Follows a script: gathers the setting, makes the job, the network and the routes, and carries out the other lines.
ghost use Rattle.std.specs.Prelude.{◌≡◌};
ghost use Rattle.model.specs.Data.{job_of, net_of};
ghost use Rattle.session.specs.Certified.{EveryPlanOfAScript};
ghost use Rattle.session.specs.Pairs.{pairs_of};
ghost use Rattle.session.specs.Printing.{Adds};
ghost use Rattle.session.specs.Sessions.{Gathers, gathering, over_routes, over_network, over_setting, over_gathering, printed};
ghost use Rattle.session.specs.Settings.{setting_of, no_setting};
ghost use Rattle.session.specs.Makings.{on};
ghost use Rattle.session.specs.Statements.{to_come};

use crate::made::Made;
use crate::print::{print_made, print_not_understood, print_refusal};
use crate::reader::Reader;
use crate::session::Session;
use crate::setting::{Setting, WrittenHops};
use crate::stop::{Maker, Stop};
use crate::table::table_of;
use crate::table_form::TableForm;
use model::{Job, Network};
use routes::searched::kinds::{routes_by_hops, routes_by_slowness};
use routes::{Routes, WrittenRoutes};
use script::RouteKind;
use std::alloc::Global;
use std::io;
use std::io::{Read, Write};

/// Takes in the lines of the setting. The first other line, if one comes, comes next again.
fn gather(alloc: Global, reader: &mut Reader<'_>) -> Result<Setting, Stop>
    ensures { Gathers result reader.new.number (to_come reader.new) (gathering no_setting (to_come reader.old)) }
{
    let mut setting = Setting::new(alloc);
    // Not a `for`, which would have the reader on loan when a line is handed back to it.
    while let Some(line) = reader.next() {
        if let Some(other) = setting.take(alloc, line?)? {
            reader.hand_back(other);
            break;
        }
    }
    Ok(setting)
}

impl<W: Write> Session<'_, '_, W> {
    ghost use Rattle.session.specs.Following.{Follows};

    /// Says what was made, and carries out the lines that follow the setting.
    fn follow_answers<R: Routes>(&mut self, made: &Made<'_, R>) -> Result<(), Stop>
        ensures { Follows W.contents result self.old self.new (on made.now (λ J N ρ. over_routes J N made.now.table made.now.kind ρ) (to_come self.old.reader)) }
    {
        print_made(self.out, made)?;
        self.lines(made)
    }

    /// Makes the routes that the script asks for, and goes on over them.
    fn follow_network(
        &mut self,
        job: &Job,
        network: Network,
        table: TableForm,
        kind: RouteKind,
        written: WrittenHops,
    ) -> Result<(), Stop>
        ensures { Follows W.contents result self.old self.new (over_network (job_of job.now) (net_of network) table kind (pairs_of written) (to_come self.old.reader)) }
    {
        match kind {
            RouteKind::Hops => {
                let routes = routes_by_hops(self.alloc, network)?;
                self.follow_answers(&Made::new(job, &routes, kind, table))
            }
            RouteKind::Slowness => {
                let routes = routes_by_slowness(self.alloc, network)?;
                self.follow_answers(&Made::new(job, &routes, kind, table))
            }
            RouteKind::Written => {
                let rows = table_of(self.alloc, network.station_count(), written)?;
                let routes = WrittenRoutes::new(network, rows).map_err(|refusal| Stop::Refused(
                    Maker::Routes,
                    refusal,
                ))?;
                self.follow_answers(&Made::new(job, &routes, kind, table))
            }
        }
    }

    /// Makes the job and the network of a setting, and goes on with them.
    fn follow_setting(&mut self, setting: Setting) -> Result<(), Stop>
        ensures { Follows W.contents result self.old self.new (over_setting (setting_of setting) (to_come self.old.reader)) }
    {
        let Setting {
            works,
            edges,
            stations,
            links,
            kind,
            table,
            written,
        } = setting;
        let job = Job::new(works, edges).map_err(|refusal| Stop::Refused(Maker::Job, refusal))?;
        let network = Network::new(stations, links).map_err(|refusal| Stop::Refused(
            Maker::Network,
            refusal,
        ))?;
        self.follow_network(&job, network, table, kind, written)
    }

    /// Follows the lines, as far as they are understood.
    fn follow_lines(&mut self) -> Result<(), Stop>
        ensures { Follows W.contents result self.old self.new (over_gathering (gathering no_setting (to_come self.old.reader))) }
    {
        let setting = gather(self.alloc, &mut self.reader)?;
        self.follow_setting(setting)
    }
}

/// Follows the script `text` from its first line to its end, or to a line that is not understood, and writes to `out`
/// what it finds, a line for each thing done.
pub fn follow_script<W: Write>(alloc: Global, text: &[u8], out: &mut W) -> io::Result<()>
    ensures printed { Adds W.contents result out.old out.new (printed text.now) }
    ensures certified { EveryPlanOfAScript }
{
    let mut session = Session::new(alloc, text, out);
    let followed = session.follow_lines();
    let Session { reader, out, .. } = session;
    match followed {
        Ok(()) => Ok(()),
        Err(Stop::NotUnderstood) => print_not_understood(out, reader.number()),
        Err(Stop::Refused(maker, refusal)) => print_refusal(out, maker, refusal),
        Err(Stop::Failed(error)) => Err(error),
    }
}

/// Follows the script on standard input, and prints what it finds.
pub fn run<R: AllocGlobal + Input + Print>(rt: &R) -> io::Result<()> {
    let mut text = Vec::new(rt.alloc());
    rt.reader().read_to_end(&mut text)?;
    follow_script(rt.alloc(), &text, &mut io::writer(rt))
}
