//! The calls of the mails.

ghost use Rattle.std.specs.Prelude.{◌≡◌, ◌≤◌, ◌↔◌, length, IsTrue, IfOk, IfErr, IfSome};
ghost use Rattle.trio_pool.specs.Mails.{IsTokenOf, library_count, IsForMails, AllFor};
ghost use Rattle.trio_pool.specs.inner.Mail.{IsSameToken};

use crate::mail::{
    Copies, Fetches, MailPass, MailQueue, MailToken, Mails, Numbered, Numbers, OfLibrary, Posts,
};
use crossbeam_queue::RuledArrayQueue;
use std::alloc::{AllocError as NoMemory, Global};
use std::marker::Brand;
use trio_rights::LibNo;

// The queue of the library that `K` picks, and a token of it.
fn open_as<J: OfLibrary, K: Numbered>(
    alloc: Global,
    library: u32,
) -> Result<(MailQueue<J>, MailToken<J>), NoMemory>
    requires { K.number ≡ library }
    ensures { IfOk result (λ r. IsTokenOf r.0 r.1 × (r.1.library ≡ library)) }
{
    let (queue, mut token) = RuledArrayQueue::ruled(alloc, 1)?;
    drop(queue.another::<Numbers<K>>(&mut token));
    Ok((MailQueue { queue }, MailToken { token, library }))
}

// The queue of a library, and a token of it.
fn open<J: OfLibrary>(alloc: Global, library: u32) -> Result<(MailQueue<J>, MailToken<J>), NoMemory>
    ensures { IfOk result (λ r. IsTokenOf r.0 r.1 × (r.1.library ≡ library)) }
{
    open_as::<J, Brand>(alloc, library)
}

impl<J: OfLibrary> MailQueue<J> {
    // One token more.
    fn another(&self, token: &mut MailToken<J>) -> MailToken<J>
        requires { IsTokenOf self.now token.old }
        ensures same { IsSameToken token.old token.new }
        ensures new { IsTokenOf self.now result × (result.library ≡ token.old.library) }
    {
        let copy = self.queue.another::<Copies>(&mut token.token);
        MailToken {
            token: copy,
            library: token.library,
        }
    }

    // One attempt to put a value of the queue's library.
    fn post(&self, token: &mut MailToken<J>, value: J) -> Result<(), J>
        requires queue { IsTokenOf self.now token.old }
        requires library { J.library value ≡ token.old.library }
        ensures same { IsSameToken token.old token.new }
        ensures back { IfErr result (λ x. x ≡ value) }
    {
        self.queue.try_push_as::<Posts>(&mut token.token, value)
    }

    // One attempt to take a value, which is of the queue's library.
    fn fetch(&self, token: &mut MailToken<J>) -> Option<J>
        requires queue { IsTokenOf self.now token.old }
        ensures same { IsSameToken token.old token.new }
        ensures library { IfSome result (λ x. J.library x ≡ token.old.library) }
    {
        self.queue.try_pop_as::<Fetches>(&mut token.token)
    }
}

impl<J: OfLibrary + Drop> Mails<J> {
    // The queue of each library, and a pass of them.
    fn set_up(alloc: Global, libs: u32) -> Result<(Mails<J>, MailPass<J>), NoMemory>
        ensures mails { IfOk result (λ r. library_count r.0 ≡ libs) }
        ensures pass { IfOk result (λ r. IsForMails r.0 r.1) }
    {
        let mut queues = Vec::with_capacity(alloc, libs as usize)?;
        let mut tokens = Vec::with_capacity(alloc, libs as usize)?;
        for k in 0..libs {
            let (queue, token) = open(alloc, k + 1)?;
            queues.push_reserved(queue);
            tokens.push_reserved(token);
        }
        Ok((Mails { queues }, MailPass { tokens }))
    }

    // One pass more.
    fn another(&self, alloc: Global, mail: &mut MailPass<J>) -> Result<MailPass<J>, NoMemory>
        requires { IsForMails self.now mail.old }
        ensures mail { IsForMails self.now mail.new }
        ensures new { IfOk result (IsForMails self.now) }
    {
        let mut tokens = Vec::with_capacity(alloc, self.queues.len())?;
        for k in 0..self.queues.len() {
            tokens.push_reserved(self.queues[k].another(&mut mail.tokens[k]));
        }
        Ok(MailPass { tokens })
    }

    /// The mails of libraries 1 to `libs`, at most 16, with room for one value each; and 1 to 64
    /// passes of them.
    ///
    /// `NoMemory`: nothing was made. The other calls take no memory.
    pub fn start(
        alloc: Global,
        libs: u32,
        passes: u32,
    ) -> Result<(Mails<J>, Vec<MailPass<J>>), NoMemory>
        requires libs { (1 ≤ libs) × (libs ≤ 16) }
        requires passes { (1 ≤ passes) × (passes ≤ 64) }
        ensures mails { IfOk result (λ r. library_count r.0 ≡ libs) }
        ensures passes { IfOk result (λ r. (length r.1.items ≡ passes) × AllFor r.0 r.1.items) }
    {
        let mut all = Vec::with_capacity(alloc, passes as usize)?;
        let (mails, mut first) = Mails::set_up(alloc, libs)?;
        for k in 1..passes {
            let pass = mails.another(alloc, &mut first)?;
            all.push_reserved(pass);
        }
        all.push_reserved(first);
        Ok((mails, all))
    }

    /// Whether the library has a mail.
    pub fn has(&self, lib: LibNo) -> bool
        ensures { IsTrue result ↔ ((1 ≤ lib.0) × (lib.0 ≤ library_count self.now)) }
    {
        1 <= lib.0 && lib.0 as usize <= self.queues.len()
    }

    /// One attempt to put a value into its library's mail. It comes back where the mail is full, or
    /// where another thread is in the way. Contracts don't say that a value which was put stays
    /// there, nor that it is taken.
    pub fn post(&self, mail: &mut MailPass<J>, value: J) -> Result<(), J>
        requires mail { IsForMails self.now mail.old }
        requires library { (1 ≤ J.library value) × (J.library value ≤ library_count self.now) }
        ensures mail { IsForMails self.now mail.new }
        ensures back { IfErr result (λ x. x ≡ value) }
    {
        let at = value.lib().0 as usize - 1;
        self.queues[at].post(&mut mail.tokens[at], value)
    }

    /// One attempt to take a value from a library's mail, which is of that library. None where the
    /// mail is empty, or where another thread is in the way.
    pub fn fetch(&self, mail: &mut MailPass<J>, lib: LibNo) -> Option<J>
        requires mail { IsForMails self.now mail.old }
        requires library { (1 ≤ lib.0) × (lib.0 ≤ library_count self.now) }
        ensures mail { IsForMails self.now mail.new }
        ensures library { IfSome result (λ x. J.library x ≡ lib.0) }
    {
        let at = lib.0 as usize - 1;
        self.queues[at].fetch(&mut mail.tokens[at])
    }
}
