//! Bodies of hail_client's public functions, for its must-fail edits to spoil.
ghost use Rattle.std.specs.Prelude.{◌≡◌, ◌<◌, ◌≤◌, ◌-◌, ◌^◌, ℕ, true, false, Err, length, map};
ghost use Rattle.machine_defs.specs.Events.{BeginPack, put_event};
ghost use Rattle.machine_defs.specs.States.{State};
ghost use Rattle.vault_open.specs.Devices.{Devices, devices};
ghost use Rattle.vault_open.specs.declared.fault.InitFault.TheVariants as init_fault;
ghost use Rattle.vault.specs.Devices.{devices_seen};
ghost use Rattle.hail_client.specs.Client.{is_open, client_next_job, uses, IsSame};
ghost use Rattle.hail_client.specs.Outcomes.{client_begin_outcome, job_goes_on, UnlessBegun};
ghost use Rattle.hail_client.specs.Stands.{ClientStands, ClientMakesStep, IsStanding, MakesEvent};

use disk_model::Disk;
use hail_client::{Client, ClientTurn};
use key_schedule::Master;
use provider_model::Provider;
use record_codec::Setup;
use std::alloc::Global;
use stream_model::Bytes;
use vault::{BeginFault, InitFault};

/// `Client::next_job`.
pub fn next_job(client: &Client) -> u32
    ensures { result ≡ client_next_job client.now }
{
    let number = client.next_job();
    number
}

/// `Client::providers`.
pub fn providers(client: &Client) -> usize
    ensures { result ≡ uses client.now }
{
    client.providers()
}

/// `Client::begin_put`.
pub fn begin_put(
    client: &mut Client,
    name: &[u8],
    bytes: Bytes,
    profile: Option<u8>,
) -> Option<Result<u32, BeginFault>>
    requires { client_next_job client.old < 2 ^ 32 - 1 }
    ensures machine { (w : State) (d : Devices) (moment : ℕ) → ClientStands client.old d w
        → MakesEvent w moment (put_event profile name.now bytes) (client_begin_outcome result) client.new
        d }
{
    let begun = client.begin_put(name, bytes, profile);
    begun
}

/// `Client::begin_scrub`.
pub fn begin_scrub(client: &mut Client, alloc: Global) -> Option<Result<u32, BeginFault>>
    requires { client_next_job client.old < 2 ^ 32 - 1 }
    ensures unchanged { UnlessBegun result (IsSame client.old client.new) }
{
    let begun = client.begin_scrub(alloc);
    begun
}

/// `Client::begin_pack`.
pub fn begin_pack(client: &mut Client) -> Option<Result<u32, BeginFault>>
    requires { client_next_job client.old < 2 ^ 32 - 1 }
    ensures machine { (w : State) (d : Devices) (moment : ℕ) → ClientStands client.old d w
        → MakesEvent w moment BeginPack (client_begin_outcome result) client.new d }
{
    let begun = client.begin_pack();
    begun
}

/// `Client::step`.
pub fn step<D: Disk, P: Provider>(
    client: &mut Client,
    job: u32,
    disk: &mut D,
    providers: &mut [P],
) -> Option<ClientTurn>
    requires { uses client.old ≤ length providers.old }
    ensures machine { (w : State) (moment : ℕ)
        → ClientStands client.old (devices_seen D.Disk P.Provider disk.old providers.old) w
        → ClientMakesStep w moment job result client.new
        (devices_seen D.Disk P.Provider disk.old providers.old)
        (devices_seen D.Disk P.Provider disk.new providers.new) }
{
    let turn = client.step(job, disk, providers);
    turn
}

/// `Client::run`.
pub fn run<D: Disk, P: Provider>(
    client: &mut Client,
    job: u32,
    disk: &mut D,
    providers: &mut [P],
) -> Option<ClientTurn>
    requires standing { is_open client.old ≡ true
        → IsStanding client.old (devices_seen D.Disk P.Provider disk.old providers.old) }
    ensures over { job_goes_on result ≡ false }
{
    client.run(job, disk, providers)
}

/// `Client::init`.
pub fn init<D: Disk>(
    client: &Client,
    alloc: Global,
    setup: &Setup,
    master: &Master,
    disk: &mut D,
) -> Result<(), InitFault>
    ensures already { is_open client.now ≡ true
        → (result ≡ Err init_fault.Already) × (disk.new ≡ disk.old) }
{
    client.init(alloc, setup, master, disk)
}

/// `Client::stop`.
pub fn stop<D: Disk>(client: &mut Client, disk: &mut D, picks: &[u8])
    ensures closed { is_open client.new ≡ false }
{
    client.stop(disk, picks);
}
