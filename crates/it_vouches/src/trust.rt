//! Trusted roots with their authorities read.
ghost use Rattle.std.specs.Prelude.{◌≡◌, ◌≤◌, All, Any, IfOk, MatchOption};
ghost use Rattle.it_certificate.specs.Certificate.{facts_of};
ghost use Rattle.it_certificate_log.specs.Bare.{WasRead};
ghost use Rattle.it_vouches.specs.Vouches.{IsAttested};
ghost use Rattle.it_vouches.specs.inside.Attested.{IsIssuedBy, IsMissedBy, IsMissedByEach};
ghost use Rattle.it_vouches.specs.inside.Shows.{LacksIssuer};
ghost use Rattle.it_vouches.specs.inside.Usable.{AreUsable};

use crate::issuer_shortfall::IssuerShortfall;
use it_base::optional::push_some;
use it_budget::Budget;
use it_certificate::Certificate;
use it_issued::{IssueShortfall, UsableAuthority, issue_shortfall, log_shortfall, read_authority};
use it_trust_root::{Authority, RootLog, TrustedRoot};
use std::alloc::{AllocError, Global};
use std::marker::Model;

/// How many signatures a run checks with a trusted root at most: for all bundles, and for the
/// certificates of its authorities. Of a public bundle that vouches they are five: it has one
/// entry, with one signature line.
pub const MOST_CHECKS: u64 = 20_000;

/// A trusted root, with those of its authorities that can be used: their certificates are read and
/// their signatures checked once, whatever number of bundles is looked at. To a contract it is the
/// trusted root.
#[derive(Drop)]
pub struct Trust<'r> {
    root: &'r TrustedRoot,
    authorities: Vec<UsableAuthority<'r>>,
}

impl<'r> Model for Trust<'r> {
    ghost use Rattle.it_trust_root.specs.declared.root.TrustedRoot.{TrustedRoot};
    ghost use Rattle.it_vouches.specs.inside.Usable.{AreUsable};

    ghost Value = { TrustedRoot };

    ghost view = { λ trust. trust.root.now };

    ghost invariant = { λ trust. AreUsable trust.root.now.authorities trust.authorities.items };
}

impl<'r> Trust<'r> {
    /// The trusted root, with its authorities read. Each check of a signature of their certificates
    /// takes one of the budget.
    ///
    /// # Errors
    ///
    /// `AllocError` where memory was refused, or where the budget has no check left.
    pub fn of(
        alloc: Global,
        budget: &mut Budget,
        root: &'r TrustedRoot,
    ) -> Result<Trust<'r>, AllocError>
        ensures answer { IfOk result (λ trust. trust ≡ root.now) }
        ensures most { budget.new.most ≡ budget.old.most }
        ensures grows { budget.old.checked ≤ budget.new.checked }
    {
        let authorities = usable_authorities(alloc, budget, root.authorities.as_slice())?;
        Ok(Trust { root, authorities })
    }

    /// The logs of entries. Takes no memory.
    pub(crate) fn logs(&self) -> &[RootLog]
        ensures { result.now ≡ self.now.logs }
    {
        self.root.logs.as_slice()
    }

    /// The furthest condition that a leaf misses where no authority issued it at a moment, in
    /// seconds, with a certificate log's promise to log the leaf; `None` where one did.
    ///
    /// # Errors
    ///
    /// `AllocError` where memory was refused, or where the budget has no check left.
    pub(crate) fn issuer_shortfall(
        &self,
        alloc: Global,
        budget: &mut Budget,
        leaf: &Certificate<'_>,
        moment: u64,
    ) -> Result<Option<IssuerShortfall>, AllocError>
        requires { WasRead leaf.now }
        ensures answer { IfOk result (λ missed. MatchOption missed
            (IsAttested self.now (facts_of leaf.now) moment)
            (LacksIssuer self.now (facts_of leaf.now) moment)) }
        ensures most { budget.new.most ≡ budget.old.most }
        ensures grows { budget.old.checked ≤ budget.new.checked }
    {
        let asked = IssueQuestion {
            logs: self.root.certificate_logs.as_slice(),
            leaf,
            moment,
        };
        shortfall_by_authorities(alloc, budget, self.authorities.as_slice(), &asked)
    }
}

/// The authorities that can be used, in their order.
fn usable_authorities<'r>(
    alloc: Global,
    budget: &mut Budget,
    listed: &'r [Authority],
) -> Result<Vec<UsableAuthority<'r>>, AllocError>
    ensures answer { IfOk result (λ usable. AreUsable listed.now usable.items) }
    ensures most { budget.new.most ≡ budget.old.most }
    ensures grows { budget.old.checked ≤ budget.new.checked }
{
    let mut usable = Vec::new(alloc);
    for authority in listed {
        push_some(&mut usable, read_authority(alloc, budget, authority)?)?;
    }
    Ok(usable)
}

/// What is asked of the authorities.
#[derive(Drop)]
struct IssueQuestion<'q> {
    /// The certificate logs, one of which must have promised to log the leaf.
    logs: &'q [RootLog],
    /// The leaf that one of them is to have issued.
    leaf: &'q Certificate<'q>,
    /// When, in seconds.
    moment: u64,
}

/// The furthest condition that a leaf misses where none of the authorities issued it and was
/// promised that it is logged.
fn shortfall_by_authorities(
    alloc: Global,
    budget: &mut Budget,
    authorities: &[UsableAuthority<'_>],
    asked: &IssueQuestion<'_>,
) -> Result<Option<IssuerShortfall>, AllocError>
    requires authorities_read { All (λ a. All WasRead a.certificates.items) authorities.now }
    requires leaf_read { WasRead asked.now.leaf.now }
    ensures answer { IfOk result (λ missed. MatchOption missed
        (Any (IsIssuedBy asked.now.logs.now (facts_of asked.now.leaf.now) asked.now.moment)
        authorities.now)
        (IsMissedByEach asked.now.logs.now (facts_of asked.now.leaf.now) asked.now.moment
        authorities.now)) }
    ensures most { budget.new.most ≡ budget.old.most }
    ensures grows { budget.old.checked ≤ budget.new.checked }
{
    let mut furthest = IssuerShortfall::Issue(IssueShortfall::Name);
    for authority in authorities {
        match shortfall_by(alloc, budget, authority, asked)? {
            Some(missed) => furthest = furthest.further(missed),
            None => return Ok(None),
        }
    }
    Ok(Some(furthest))
}

/// The condition that a leaf misses with an authority, if it misses one.
fn shortfall_by(
    alloc: Global,
    budget: &mut Budget,
    authority: &UsableAuthority<'_>,
    asked: &IssueQuestion<'_>,
) -> Result<Option<IssuerShortfall>, AllocError>
    requires authority_read { All WasRead authority.now.certificates.items }
    requires leaf_read { WasRead asked.now.leaf.now }
    ensures answer { IfOk result (λ missed. MatchOption missed
        (IsIssuedBy asked.now.logs.now (facts_of asked.now.leaf.now) asked.now.moment
        authority.now)
        (IsMissedBy asked.now.logs.now (facts_of asked.now.leaf.now) asked.now.moment
        authority.now)) }
    ensures most { budget.new.most ≡ budget.old.most }
    ensures grows { budget.old.checked ≤ budget.new.checked }
{
    let leaf = asked.leaf;
    let Some(issuer) = authority.certificates.as_slice().first() else {
        return Ok(Some(IssuerShortfall::Issue(IssueShortfall::Name)));
    };
    if let Some(missed) = issue_shortfall(alloc, budget, authority, leaf, asked.moment)? {
        return Ok(Some(IssuerShortfall::Issue(missed)));
    }
    if let Some(missed) = log_shortfall(alloc, budget, asked.logs, issuer, leaf)? {
        return Ok(Some(IssuerShortfall::Log(missed)));
    }
    Ok(None)
}
