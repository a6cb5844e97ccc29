//! The work of the server's threads.
use crate::backoff::Backoff;
use crate::connections::handle_connection;
use crate::handle_pool::HandlePool;
use crate::question_log::QuestionLog;
use crate::session_log::{log_beginning, log_end};
use board::{BoardState, HistoryId};
use desk::{Client, Desk, Turn, TurnFailure, Worker};
use findings::Hold;
use log::Log;
use std::alloc::Global;
use std::net::TcpStream;
use std::sync::atomic::{AtomicU64, Ordering};
use std::sync::{Arc, Mutex, Wait};
use std::thread;
use std::time::{Clock, Duration};

/// The length of a pause between two looks of the log at the questions, in milliseconds.
const LOOK_MILLIS: u64 = 20;

/// The work of the server's threads, which share it.
pub trait ServerTasks: Sync {
    /// Lets a worker take turns until the workers must stop.
    fn work(&self);

    /// Serves the session with this number, counted from 1, over the stream.
    fn run_session(&self, session: u64, stream: &TcpStream);

    /// Logs what becomes of questions until the workers must stop.
    fn log_questions(&self);
}

/// The work at a desk.
#[derive(Drop)]
pub struct DeskTasks<'a, N: HistoryId, R: Wait + Copy, H: Hold, L: Log> {
    pub rt: R,
    pub alloc: Global,
    pub desk: &'a Arc<Desk<N, R, BoardState<N>>>,
    pub handle_pool: &'a Mutex<HandlePool<N>>,
    pub hold: &'a H,
    /// The seconds after which an idle session is closed, or 0.
    pub idle: u32,
    pub log: &'a L,
    /// Nonzero once the workers must stop.
    pub stop: &'a AtomicU64,
}

impl<
    'a,
    N: HistoryId + Send + Sync,
    R: Wait + Clock + Copy + Send + Sync,
    H: Hold + Sync,
    L: Log + Sync,
> ServerTasks for DeskTasks<'a, N, R, H, L> {
    /// The worker sleeps while its turns have nothing to do, longer if they fail for lack of
    /// memory. After a search that was paused it takes the next turn at once.
    fn work(&self) {
        let Ok(desk) = Arc::try_clone(self.desk) else {
            return;
        };
        let taken = self.handle_pool.lock(&self.rt).take_for_worker();
        let Some((claimant, reader)) = taken else {
            return;
        };
        let mut worker = Worker::new(desk, claimant, reader);
        let mut backoff = Backoff::new();
        for _ in self.rt.forever() {
            if self.stop.load(Ordering::SeqCst) != 0 {
                return;
            }
            if backoff.sleeps(&self.rt) {
                continue;
            }
            match worker.turn(self.hold) {
                Turn::Delivered | Turn::Paused => backoff.worked(),
                Turn::Failed(TurnFailure::NoMemory) => backoff.after_failure(),
                _ => backoff.after_nothing(&self.rt),
            }
        }
    }

    fn run_session(&self, session: u64, stream: &TcpStream) {
        let Ok(desk) = Arc::try_clone(self.desk) else {
            return;
        };
        let taken = self.handle_pool.lock(&self.rt).take_reader();
        let Some(reader) = taken else {
            return;
        };
        let mut client = Client::new(desk, reader);
        log_beginning(self.log, session, stream);
        let ended = handle_connection(&self.rt, self.alloc, stream, self.idle, &mut client);
        log_end(self.log, session, self.idle, ended);
        self.handle_pool
            .lock(&self.rt)
            .give_back(client.into_reader());
    }

    /// The status of a question is read without the lock of the desk.
    fn log_questions(&self) {
        let Ok(desk) = Arc::try_clone(self.desk) else {
            return;
        };
        let taken = self.handle_pool.lock(&self.rt).take_reader();
        let Some(reader) = taken else {
            return;
        };
        let mut client = Client::new(desk, reader);
        let mut questions = QuestionLog::new();
        for _ in self.rt.forever() {
            let is_last = self.stop.load(Ordering::SeqCst) != 0;
            questions.look(&self.rt, &mut client, self.log);
            if is_last {
                return;
            }
            thread::sleep(&self.rt, Duration::from_millis(LOOK_MILLIS));
        }
    }
}
