//! Jobs that are none.
use fax_job::{Dial, Job, JobFields, JobTag, Moment, Name, Phase, Status, Wish};
use fax_lines::read_lines;
use std::alloc::Global;
use std::test::Fail;

/// A held job of three pages, one of which is sent.
fn fields(alloc: Global) -> Result<JobFields, Fail> {
    Ok(JobFields {
        job: 1,
        dial: Dial::read(alloc, "5550111")?,
        modem: Name::read(alloc, "any")?,
        jobtag: JobTag::read(alloc, "")?,
        tts: Moment::new(1000),
        killtime: None,
        priority: 127,
        npages: 1,
        totpages: 3,
        ntries: 1,
        tottries: 2,
        maxtries: 3,
        ndials: 1,
        totdials: 3,
        maxdials: 12,
        phase: Phase::Held,
        wish: Wish::Go,
        next: 1200,
        status: Status::empty(),
        extra: read_lines(alloc, b"")?,
    })
}

/// Whether there is such a job with so many pages sent, to be tried again from that moment on.
fn is_job(alloc: Global, npages: u16, next: u32) -> Result<bool, Fail> {
    let job = Job::new(JobFields {
        npages,
        next,
        ..fields(alloc)?
    });
    Ok(job.is_some())
}

/// Whether there is such a job with these lines beside its own.
fn is_job_with(alloc: Global, extra: &[u8]) -> Result<bool, Fail> {
    let job = Job::new(JobFields {
        extra: read_lines(alloc, extra)?,
        ..fields(alloc)?
    });
    Ok(job.is_some())
}

#[test]
fn unlawful_jobs(rt: HostRuntime) -> Result<(), Fail> {
    assert_eq!(rt; is_job(rt.alloc(), 3, 4_102_531_200)?, true);
    assert_eq!(rt; is_job(rt.alloc(), 3, 4_102_531_201)?, false);
    assert_eq!(rt; is_job(rt.alloc(), 4, 0)?, false);
    assert_eq!(rt; is_job_with(rt.alloc(), b"sender:A. Clerk\n")?, true);
    assert_eq!(rt; is_job_with(rt.alloc(), b"state:1\n")?, false);
    Ok(())
}
